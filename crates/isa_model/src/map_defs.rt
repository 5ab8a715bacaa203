//! Map rows. bpf(2), BPF_MAP_CREATE.

/// The types of map.
#[derive(Clone, Copy, PartialEq, Eq)]
pub enum MapType {
    Hash,
    Array,
}

/// A map row: the type, the sizes in bytes of a key and of a value, and the most keys.
#[derive(Clone, Copy)]
pub struct MapDef {
    pub kind: MapType,
    pub key_size: u16,
    pub value_size: u32,
    pub entries: u32,
}
