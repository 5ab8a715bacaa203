//! Buckets of stored states, which link them by their indexes.

/// A link to nothing. No list has so many elements that this is the index of one.
pub const NO_LINK: u32 = u32::MAX;

/// Says where a stored state is found.
#[derive(Clone, Copy, Drop)]
pub enum Stage {
    /// In a bucket of unfinished ones.
    Unfinished,
    /// In a bucket of finished ones.
    Finished,
    /// In a tree, or waiting for one.
    InTree,
}

/// A stored state, which is in one bucket at most at a time.
#[derive(Clone, Copy, Drop)]
pub struct StateLink {
    /// A fingerprint of all that is known.
    pub fingerprint: u64,
    /// A fingerprint of the state's shape, and of what is known in it.
    pub known: u64,
    /// The one after it in its bucket, or of those that wait for a tree.
    pub next: u32,
    /// The last finished stored state of its bucket when it was stored; none if the bucket could
    /// not contain one in which the same is known (its mark bit was clear).
    pub before: u32,
    pub stage: Stage,
}

/// A bucket of finished states, in the order in which they were stored.
#[derive(Clone, Copy, Drop)]
pub struct FinishedBucket {
    pub first: u32,
    pub last: u32,
    pub marks: u32,
}

/// A bucket of unfinished states, the newest first.
#[derive(Clone, Copy, Drop)]
pub struct UnfinishedBucket {
    pub first: u32,
    pub marks: u32,
}

/// An empty bucket of finished states.
pub const NO_FINISHED: FinishedBucket = FinishedBucket {
    first: NO_LINK,
    last: NO_LINK,
    marks: 0,
};

/// An empty bucket of unfinished states.
pub const NO_UNFINISHED: UnfinishedBucket = UnfinishedBucket {
    first: NO_LINK,
    marks: 0,
};

/// The link to what has this index.
pub fn link_to(index: usize) -> u32 {
    u32::try_from(index).unwrap_or(NO_LINK)
}

/// The bucket of a fingerprint, where there are this many buckets.
pub fn bucket_of(fingerprint: u64, buckets: usize) -> usize {
    (fingerprint >> 16) as usize & buckets.wrapping_sub(1)
}

/// The mark that a stored state with the fingerprint leaves on its bucket. Without that mark a
/// bucket has no state with the fingerprint.
pub fn mark_of(fingerprint: u64) -> u32 {
    1 << (fingerprint >> 59)
}

/// The bucket of finished states in which this is known, or an empty one if it has no such state.
pub fn bucket_with(buckets: &[FinishedBucket], known: u64) -> FinishedBucket {
    match buckets.get(bucket_of(known, buckets.len())) {
        Some(bucket) if bucket.marks & mark_of(known) != 0 => *bucket,
        _ => NO_FINISHED,
    }
}

/// Replaces the stored state after another one, and returns the one that was there.
pub fn replace_next(links: &mut [StateLink], index: u32, next: u32) -> u32 {
    let Some(link) = links.get_mut(index as usize) else {
        return NO_LINK;
    };
    let replaced = link.next;
    link.next = next;
    replaced
}
