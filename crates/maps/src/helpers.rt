//! Look-ups, updates and deletes, as the helpers answer them.

ghost use Rattle.std.specs.Prelude.{◌≡◌, length, option_copied};
ghost use Rattle.std.specs.FinMap.{get};
ghost use Rattle.isa_model.specs.Machine.MapContents.{at_key, update_answer as the_update_answer, update_answer_by, delete_answer, after_update, after_delete};
ghost use Rattle.maps.specs.Changes.{Updates, Deletes};
ghost use Rattle.maps.specs.Contents.{content};

use crate::store::MapStore;
use isa_model::MapType;

const NOEXIST: u64 = 1;

const EXIST: u64 = 2;

const ENOENT: u64 = 0xffff_ffff_ffff_fffe;

const E2BIG: u64 = 0xffff_ffff_ffff_fff9;

const EEXIST: u64 = 0xffff_ffff_ffff_ffef;

const EINVAL: u64 = 0xffff_ffff_ffff_ffea;

// The answer to an update of a key: 0, or the error of the first test that fails.
fn update_answer_by(kind: MapType, present: bool, full: bool, flags: u64) -> u64
    ensures { result ≡ update_answer_by kind present full flags }
{
    if flags > EXIST {
        return EINVAL;
    }
    match kind {
        MapType::Array if !present => E2BIG,
        _ if present && flags == NOEXIST => EEXIST,
        MapType::Hash if !present && flags == EXIST => ENOENT,
        MapType::Hash if !present && full => E2BIG,
        _ => 0,
    }
}

// The place of a key, and the answer to its update.
#[derive(Clone, Copy)]
struct Tested {
    found: Option<usize>,
    answer: u64,
}

fn test_update<S: MapStore>(store: &S, key: &[u8], flags: u64) -> Tested
    requires { length key.now ≡ (S.row_of store.now).key_size }
    ensures found { result.found ≡ get (S.places store.now) key.now }
    ensures answer { result.answer ≡ the_update_answer (S.row_of store.now)
        (content (S.row_of store.now).value_size (S.places store.now) (S.block store.now)) key.now
        flags }
{
    let found = store.find(key);
    let answer = update_answer_by(store.row().kind, found.is_some(), store.is_full(), flags);
    Tested { found, answer }
}

/// The value of a key, if it has one.
pub fn lookup<'a, S: MapStore>(store: &'a S, key: &[u8]) -> Option<&'a [u8]>
    requires { length key.now ≡ (S.row_of store.now).key_size }
    ensures { option_copied result ≡ at_key key.now
        (content (S.row_of store.now).value_size (S.places store.now) (S.block store.now)) }
{
    let place = store.find(key)?;
    Some(store.value(place))
}

/// Writes the value of a key, or adds the key. The answer is 0, or the error of the first test that
/// fails, and then the map stays as it is.
pub fn update<S: MapStore>(store: &mut S, key: &[u8], value: &[u8], flags: u64) -> u64
    requires key_size { length key.now ≡ (S.row_of store.old).key_size }
    requires value_size { length value.now ≡ (S.row_of store.old).value_size }
    ensures answer { result ≡ the_update_answer (S.row_of store.old)
        (content (S.row_of store.old).value_size (S.places store.old) (S.block store.old)) key.now
        flags }
    ensures content { content (S.row_of store.old).value_size (S.places store.new)
        (S.block store.new)
        ≡ after_update (S.row_of store.old)
        (content (S.row_of store.old).value_size (S.places store.old) (S.block store.old)) key.now
        value.now flags }
    ensures updates { Updates (S.row_of store.old).value_size result key.now value.now
        (S.places store.old) (S.block store.old) (S.places store.new) (S.block store.new) }
    ensures row { S.row_of store.new ≡ S.row_of store.old }
{
    let Tested { found, answer } = test_update(store, key, flags);
    if answer != 0 {
        return answer;
    }
    match found {
        Some(place) => store.write(place, value),
        None => {
            store.put(key, value);
        }
    }
    answer
}

/// Removes a key. The answer is 0, or an error, and then the map stays as it is.
pub fn delete<S: MapStore>(store: &mut S, key: &[u8]) -> u64
    requires { length key.now ≡ (S.row_of store.old).key_size }
    ensures answer { result ≡ delete_answer (S.row_of store.old)
        (content (S.row_of store.old).value_size (S.places store.old) (S.block store.old)) key.now }
    ensures content { content (S.row_of store.old).value_size (S.places store.new)
        (S.block store.new)
        ≡ after_delete (S.row_of store.old)
        (content (S.row_of store.old).value_size (S.places store.old) (S.block store.old)) key.now }
    ensures deletes { Deletes result key.now (S.places store.old) (S.block store.old)
        (S.places store.new) (S.block store.new) }
    ensures row { S.row_of store.new ≡ S.row_of store.old }
{
    match store.row().kind {
        MapType::Array => EINVAL,
        MapType::Hash => match store.remove(key) {
            Some(_) => 0,
            None => ENOENT,
        },
    }
}
