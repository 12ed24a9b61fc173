/// One accepted command of a history. Users and the commands of each user count from 1.
#[derive(Drop)]
pub struct Entry<T> {
    pub user: u32,
    pub command: u32,
    pub writes: T,
}
