/// An entry of an inner page: a child, and a key that covers everything below it.
#[derive(Clone, Copy)]
pub struct Branch<K> {
    pub key: K,
    pub child: u32,
}
