use crate::trial::Answer::*;
use crate::trial::Call::*;
use crate::trial::Plan::*;
use crate::trial::{Call, MPCNT, OVERRUN, Outcome, RSTAT, WHOLE, on_both, on_bytes, on_words};
use recogniser::Recogniser;
use recogniser::sheet::Sheet;
use recogniser::station::Station;
use refusal::code;

const OWN: [u8; 6] = [0x02, 0, 0, 0, 0, 0x01];

const OTHER: [u8; 6] = [0x02, 0, 0, 0, 0, 0x02];

const BROADCAST: [u8; 6] = [0xFF; 6];

// Its group index is 49.
const GROUP: [u8; 6] = [0xFF, 0xFF, 0, 0, 0xFF, 0xFF];

const NONE: [u8; 8] = [0; 8];

const ALL: [u8; 8] = [0xFF; 8];

const ONLY_49: [u8; 8] = [0, 0, 0, 0, 0, 0, 0x02, 0];

const ALL_BUT_49: [u8; 8] = [0xFF, 0xFF, 0xFF, 0xFF, 0xFF, 0xFF, 0xFD, 0xFF];

// Switches, a group table and an address, and whether the station accepts it.
const MEMBERS: &[(u8, [u8; 8], [u8; 6], bool)] = &[
    // the station's own address
    (0x00, NONE, OWN, true),
    (0x1C, ALL, OWN, true),
    (0x00, ALL, OTHER, false),
    // PROM
    (0x10, NONE, OTHER, true),
    (0x10, ALL, BROADCAST, false),
    (0x10, ALL, GROUP, false),
    // BROAD
    (0x04, NONE, BROADCAST, true),
    (0x04, ALL, OTHER, false),
    (0x04, ALL, GROUP, false),
    // GROUP
    (0x08, ONLY_49, GROUP, true),
    (0x08, ALL_BUT_49, GROUP, false),
    (0x08, ALL, OTHER, false),
    // six FFh are never looked up in the group table
    (0x08, ALL, BROADCAST, false),
    (0x1C, NONE, BROADCAST, true),
    // the other switches
    (0xE3, ALL, OTHER, false),
    (0xE3, ALL, BROADCAST, false),
    (0xE3, ALL, GROUP, false),
];

#[test]
fn station_members(rt: HostRuntime) {
    for (i, (switches, table, address, member)) in MEMBERS.iter().enumerate() {
        let station = Station {
            address: OWN,
            switches: *switches,
            table: *table,
        };
        assert_eq!(rt; station.accepts(address), *member, "row {i}");
    }
}

// A frame of six bytes that goes by the group table, and matches.
const GROUP_FRAME: &[(Call, Outcome)] = &[
    (Open(Three, 3), Ok(Accepted)),
    (Begin, Ok(Accepted)),
    (Bytes(0xFF, 2), Ok(Accepted)),
    (Bytes(0x00, 2), Ok(Accepted)),
    (Bytes(0xFF, 2), Ok(Accepted)),
    (Line(WHOLE), Ok(Accepted)),
    (Take(12), Ok(Frame(0, 2, 6, 0x21))),
    (
        Buffer,
        Ok(Holds([0xFF, 0xFF, 0x00, 0x00, 0xFF, 0xFF, 7, 7, 7, 7, 7, 7])),
    ),
];

#[test]
fn group_frame(rt: HostRuntime) {
    on_both(
        &rt,
        Station {
            address: OWN,
            switches: 0x08,
            table: ONLY_49,
        },
        GROUP_FRAME,
    );
}

// The numbers are the rules', 0 for a call that is accepted, so they stand as numbers.
#[test]
fn sheet_members(rt: HostRuntime) {
    let mut entries = [OTHER; 2];
    let mut sheet = Sheet::new(&mut entries);
    assert!(rt; !sheet.accepts(&OTHER));
    assert_eq!(rt; code(sheet.admit(OWN)), 0);
    assert_eq!(rt; code(sheet.admit(OWN)), 19);
    assert!(rt; sheet.accepts(&OWN));
    assert!(rt; !sheet.accepts(&OTHER));
    assert_eq!(rt; code(sheet.admit(GROUP)), 0);
    assert_eq!(rt; code(sheet.admit(OTHER)), 18);
    assert_eq!(rt; code(sheet.admit(OWN)), 18);
    assert!(rt; sheet.accepts(&OWN));
    assert!(rt; sheet.accepts(&GROUP));
    assert!(rt; !sheet.accepts(&OTHER));
}

// The sheet has six bytes of 02h: they are recognised, and six bytes of 04h are not.
const SHEET_FRAMES: &[(Call, Outcome)] = &[
    (Open(Three, 3), Ok(Accepted)),
    (Begin, Ok(Accepted)),
    (Bytes(0x04, 6), Ok(Accepted)),
    (Line(OVERRUN), Ok(Accepted)),
    (RSTAT, Ok(Value(0x00))),
    (Begin, Ok(Accepted)),
    (Bytes(0x02, 6), Ok(Accepted)),
    (Line(OVERRUN), Ok(Accepted)),
    (RSTAT, Ok(Value(0x08))),
    (MPCNT, Ok(Value(1))),
];

#[test]
fn sheet_frames(rt: HostRuntime) {
    let mut entries = [[0; 6]; 2];
    let mut sheet = Sheet::new(&mut entries);
    assert_eq!(rt; code(sheet.admit([0x02; 6])), 0);
    on_bytes(&rt, sheet, SHEET_FRAMES);
    assert_eq!(rt; entries, [[0x02; 6], [0; 6]]);
    let mut entries = [[0; 6]; 2];
    let mut sheet = Sheet::new(&mut entries);
    assert_eq!(rt; code(sheet.admit([0x02; 6])), 0);
    on_words(&rt, sheet, SHEET_FRAMES);
    assert_eq!(rt; entries, [[0x02; 6], [0; 6]]);
}
