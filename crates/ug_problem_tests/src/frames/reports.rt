use crate::frames::sides::{Side, each_is_so};
use std::alloc::{AllocError, Global};
use ug_frames::{Decoded, Report, decode_report, encode_report};

// Reports with the least and the greatest of each field: what they are, and the frame, in which `t`
// is the ticket (1, 1), and `z` eight bytes of 0.
const REPORTS: &str = "\
Ready: 00000001 11
Solution under (1, 1) without values: 00000015 12 t 00000000
Solution under the greatest ticket, the least value, 0 and the greatest: 00000021 12 ffffffffffffffff ffffffffffffffff 00000003 c4653600 00000000 3b9aca00
Hand under (1, 1), number 0, without changes: 0000001d 13 t z 00000000
Hand, the greatest of each, column 7 to -1..0 and column 9999 to the greatest bound: 00000035 13 ffffffffffffffff ffffffffffffffff ffffffffffffffff 00000002 00000007 ffffffff 00000000 0000270f 3b9aca00 3b9aca00
State under (1, 1), one left, the least floor: 00000029 14 t 0000000000000001 f0f423de544b724dfe1792c000000000
State, the greatest of each: 00000029 14 ffffffffffffffff ffffffffffffffff ffffffffffffffff 0f0bdc21abb48db201e86d4000000000
Done under (1, 1), no cutoff and no hand: 0000001a 15 t 00 z
Done under (1, 1), the least cutoff and one hand: 0000002a 15 t 01 f0f423de544b724dfe1792c000000000 0000000000000001
Done, the greatest of each: 0000002a 15 ffffffffffffffff ffffffffffffffff 01 0f0bdc21abb48db201e86d4000000000 ffffffffffffffff
Ended: 00000001 16
";

// Frames that are there and are no report's: what is wrong, and the frame.
const NO_REPORTS: &str = "\
a byte more: 00000002 11 00
a byte more: 00000002 16 00
a value too great: 00000019 12 t 00000001 3b9aca01
a value too small: 00000019 12 t 00000001 c46535ff
too many values: 00000015 12 t 00002711
more values than are there: 00000019 12 t 00000002 00000000
a byte more: 0000001a 12 t 00000001 00000000 00
run 0: 00000015 12 0000000000000000 0000000000000001 00000000
number 0: 0000001d 13 0000000000000001 0000000000000000 0000000000000000 00000000
columns that fall: 00000035 13 t z 00000002 00000001 z z 00000000
a low above its high: 00000029 13 t 0000000000000000 00000001 00000001 00000001 00000000
a byte less: 0000001c 13 t 0000000000000000 000000
no open node: 00000029 14 t 0000000000000000 00000000000000000000000000000000
a floor too great: 00000029 14 t 0000000000000001 0f0bdc21abb48db201e86d4000000001
a floor too small: 00000029 14 t 0000000000000001 f0f423de544b724dfe1792bfffffffff
a byte more: 0000002a 14 t 0000000000000001 00000000000000000000000000000000 00
a flag of 2: 0000001a 15 t 02 0000000000000000
a cutoff too great: 0000002a 15 t 01 0f0bdc21abb48db201e86d4000000001 0000000000000000
a byte less: 00000019 15 t 00 00000000000000
a byte more: 0000002b 15 t 01 00000000000000000000000000000000 0000000000000000 00
a tag of none: 00000001 00
a tag of none: 00000001 01
a tag of none: 00000001 08
a tag of none: 00000001 10
a tag of none: 00000001 17
a tag of none: 00000001 ff
";

impl Side for Report {
    fn decode(alloc: Global, bytes: &[u8]) -> Result<Decoded<Report>, AllocError> {
        decode_report(alloc, bytes)
    }

    fn copy(buffer: &mut Vec<u8>, alloc: Global, bytes: &[u8]) -> bool {
        match decode_report(alloc, bytes) {
            Ok(Decoded::Whole { message, .. }) => {
                let is_written = encode_report(buffer, &message).is_ok();
                drop(message);
                is_written
            }
            _ => false,
        }
    }
}

#[test]
fn reads_and_writes_reports(rt: HostRuntime) {
    each_is_so::<Report>(&rt, rt.alloc(), REPORTS, true);
    each_is_so::<Report>(&rt, rt.alloc(), NO_REPORTS, false);
}
