//! Commands on a map, and the replies to lists of them.

ghost use Rattle.std.specs.Prelude.{◌≡◌, ℕ, ◌≤◌, length, map, vec_capacity, IfOk, OnOk, All};
ghost use Rattle.maps.specs.Contents.{content};
ghost use Rattle.maps.specs.Commands.{said, reply_to, content_after, replies_of, content_left, Fits};

use crate::helpers::{delete, lookup, update};
use crate::store::MapStore;
use std::alloc::{AllocError, Global};

/// A command on a map.
pub enum MapCommand<'a> {
    Lookup {
        key: &'a [u8],
    },
    Update {
        key: &'a [u8],
        value: &'a [u8],
        flags: u64,
    },
    Delete {
        key: &'a [u8],
    },
}

/// The reply to a command: for a look-up the value of the key, if it has one, and for the others 0
/// or an error.
#[derive(Drop)]
pub enum Reply {
    Value(Vec<u8>),
    Absent,
    Number(u64),
}

/// Does what a command says, and returns the reply.
pub fn apply<S: MapStore>(
    alloc: Global,
    store: &mut S,
    command: &MapCommand<'_>,
) -> Result<Reply, AllocError>
    requires { Fits (S.row_of store.old) command.now }
    ensures reply { IfOk result (λ r. said r ≡ reply_to (S.row_of store.old)
        (content (S.row_of store.old).value_size (S.places store.old) (S.block store.old))
        command.now) }
    ensures content { OnOk result
        (content (S.row_of store.old).value_size (S.places store.new) (S.block store.new)
        ≡ content_after (S.row_of store.old)
        (content (S.row_of store.old).value_size (S.places store.old) (S.block store.old))
        command.now) }
    ensures row { S.row_of store.new ≡ S.row_of store.old }
{
    match command {
        MapCommand::Lookup { key } => match lookup(store, key) {
            Some(value) => Ok(Reply::Value(value.to_vec(alloc)?)),
            None => Ok(Reply::Absent),
        },
        MapCommand::Update { key, value, flags } => {
            Ok(Reply::Number(update(store, key, value, *flags)))
        }
        MapCommand::Delete { key } => Ok(Reply::Number(delete(store, key))),
    }
}

/// The replies to a list of commands: those of a finite map that has at most max_entries keys.
/// Memory is taken only for the replies.
pub fn replies<S: MapStore>(
    alloc: Global,
    store: &mut S,
    commands: &[MapCommand<'_>],
) -> Result<Vec<Reply>, AllocError>
    requires { All (Fits (S.row_of store.old)) commands.now }
    ensures replies { IfOk result (λ rs. map said rs.items ≡ replies_of (S.row_of store.old)
        (content (S.row_of store.old).value_size (S.places store.old) (S.block store.old))
        commands.now) }
    ensures content { OnOk result
        (content (S.row_of store.old).value_size (S.places store.new) (S.block store.new)
        ≡ content_left (S.row_of store.old)
        (content (S.row_of store.old).value_size (S.places store.old) (S.block store.old))
        commands.now) }
    ensures row { S.row_of store.new ≡ S.row_of store.old }
{
    let mut replies = Vec::with_capacity(alloc, commands.len())?;
    for i in 0..commands.len() {
        let reply = apply(alloc, store, &commands[i])?;
        replies.push_reserved(reply);
    }
    Ok(replies)
}
