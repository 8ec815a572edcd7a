// A call that a host makes of a board that is set up, and its answer.
use board::admission::Admission;
use board::gathered::Gathered;
use model::fault::{NamingFault, RequestFault};
use model::wanted::Wanted;
use store::fault::BufferFault;

#[derive(Clone, Copy)]
pub enum Call<'a> {
    Admit(Wanted),
    Withdraw { key: u32 },
    Load { image: &'a [u8] },
}

// An answer is of the kind of its call.
#[derive(Drop)]
pub enum Answer {
    // The rows made, or a refusal, 10 to 17.
    Admitted(Result<Admission, RequestFault>),
    // The key gathered on each processor, or 0; or a refusal, 20.
    Withdrawn(Result<Gathered, NamingFault>),
    // Nothing, or a refusal, 31 to 39, with its place.
    Loaded(Result<(), BufferFault>),
}
