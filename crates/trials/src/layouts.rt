use self::Call::*;
use layout::layout::Layout;
use memory::address::{Address, Page};
use refusal::{Refusal, code};

/// A call on a layout. The list has calls with their answers, so they are values.
#[derive(Clone, Copy)]
enum Call {
    /// A size, RBEGIN and REND.
    Table(u32, u8, u8),
    /// A start and a length.
    Add(u32, u16),
    /// The first start of so many buffers of one byte, one after the other.
    AddEach(u16, u16),
}

// Each call with the number that it answers, and how many buffers the layout has then. The numbers are the rules', 0 for a
// call that is accepted, so they stand as numbers.
const STEPS: &[(Call, u8, usize)] = &[
    // a blank layout has no page
    (Add(256, 4), 3, 0),
    (Add(0, 0), 3, 0),
    // sizes
    (Table(256, 0, 1), 1, 0),
    (Table(511, 0, 1), 1, 0),
    (Table(896, 0, 1), 1, 0),
    (Table(65792, 0, 1), 1, 0),
    (Table(0, 1, 1), 1, 0),
    // tables
    (Table(512, 1, 1), 2, 0),
    (Table(512, 2, 1), 2, 0),
    (Table(1024, 0, 3), 2, 0),
    (Table(512, 1, 3), 2, 0),
    (Add(256, 4), 3, 0),
    (Table(65536, 253, 255), 0, 0),
    (Table(512, 0, 1), 0, 0),
    // buffers
    (Add(256, 4), 0, 1),
    (Add(260, 4), 0, 2),
    (Add(264, 4), 0, 3),
    (Add(300, 0), 4, 3),
    (Add(0, 0), 4, 3),
    (Add(511, 2), 4, 3),
    (Add(512, 1), 4, 3),
    (Add(0xFFFF_FFFF, 0xFFFF), 4, 3),
    (Add(259, 2), 5, 3),
    (Add(255, 2), 5, 3),
    (Add(0, 1), 5, 3),
    (Add(256, 12), 5, 3),
    (Add(510, 2), 0, 4),
    // a refused table keeps the buffers, and an accepted one drops them
    (Table(500, 0, 1), 1, 4),
    (Table(512, 1, 1), 2, 4),
    (Add(267, 1), 5, 4),
    (Table(1024, 0, 2), 0, 0),
    (Add(511, 1), 5, 0),
    (Add(512, 1), 0, 1),
    // 32 buffers for each page of the table
    (AddEach(513, 63), 0, 64),
    (Add(600, 1), 3, 64),
    (Table(512, 0, 1), 0, 0),
    (AddEach(256, 32), 0, 32),
    (Add(300, 1), 3, 32),
    (Add(0, 0), 3, 32),
];

fn play(layout: &mut Layout, call: Call) -> Result<(), Refusal> {
    match call {
        Table(size, rbegin, rend) => layout.table(size, Page(rbegin), Page(rend)),
        Add(start, length) => layout.add(Address(start), length),
        AddEach(first, count) => {
            for start in (first as u32..).take(count as usize) {
                layout.add(Address(start), 1)?;
            }
            Ok(())
        }
    }
}

#[test]
fn table_and_add(rt: HostRuntime) {
    let mut layout = Layout::blank();
    for (i, (call, number, buffers)) in STEPS.iter().enumerate() {
        let answer = play(&mut layout, *call);
        assert_eq!(rt; code(answer), *number, "step {i}");
        assert_eq!(rt; layout.buffers().len(), *buffers, "step {i}");
    }
}
