/// The answer to one command: the number of the version that the reply speaks of, and the reply.
#[derive(Drop)]
pub struct Told<R> {
    pub place: u64,
    pub reply: R,
}
