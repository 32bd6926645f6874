/// An entry of a map: an id and its key.
#[derive(Clone, Copy, Debug, PartialEq, Eq)]
pub struct MapEntry<K> {
    pub id: u64,
    pub key: K,
}
