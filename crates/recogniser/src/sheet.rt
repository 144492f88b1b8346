ghost use Rattle.std.specs.Prelude.{◌≤◌, length};

mod calls;

/// A caller's list of addresses with a count of those in use: those are the members.
// A count beside the list, since the list is the caller's and nothing here allocates: both are rules of the project.
#[derive(Drop)]
pub struct Sheet<'a> {
    entries: &'a mut [[u8; 6]],
    count: usize,
    ghost bounded: { count ≤ length entries.now },
}
