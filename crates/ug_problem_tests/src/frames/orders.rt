use crate::frames::sides::{Side, each_is_so};
use std::alloc::{AllocError, Global};
use ug_frames::{Decoded, Order, decode_order, encode_order};

// Orders with the least and the greatest of each field: what they are, and the frame, in which `t`
// is the ticket (1, 1), and `z` eight bytes of 0.
const ORDERS: &str = "\
Setup, gap 0 and no record: 00000011 01 zz
Setup, the greatest gap and three bytes: 00000014 01 1e17b84357691b6403d0da8000000000 00ff07
Work under (1, 1), params 0, no race, no cutoff, and column 0 to 0..4: 00000024 02 t 00 00 00 00000001 00000000 00000000 00000004
Work under (1, 2), params 3, the least cutoff and no change: 00000028 02 0000000000000001 0000000000000002 03 00 01 f0f423de544b724dfe1792c000000000 00000000
Work under the greatest ticket, params 7, a race, the greatest cutoff and three changes: 0000004c 02 ffffffffffffffff ffffffffffffffff 07 01 01 0f0bdc21abb48db201e86d4000000000 00000003 00000000 c4653600 c4653600 0000270e c4653600 3b9aca00 0000270f 3b9aca00 3b9aca00
Incumbent, the least cutoff: 00000011 03 f0f423de544b724dfe1792c000000000
Incumbent, cutoff 0: 00000011 03 zz
Incumbent, the greatest cutoff: 00000011 03 0f0bdc21abb48db201e86d4000000000
CollectIn under (1, 1), one: 00000015 04 t 00000001
CollectIn, the greatest of each: 00000015 04 ffffffffffffffff ffffffffffffffff ffffffff
CollectOut under (1, 1): 00000011 05 t
CollectOut under the greatest ticket: 00000011 05 ffffffffffffffff ffffffffffffffff
Winner under (1, 1): 00000011 06 t
Winner under the greatest ticket: 00000011 06 ffffffffffffffff ffffffffffffffff
Stop under (1, 1): 00000011 07 t
Stop under the greatest ticket: 00000011 07 ffffffffffffffff ffffffffffffffff
End: 00000001 08
";

// Frames that are there and are no order's: what is wrong, and the frame.
const NO_ORDERS: &str = "\
a gap below 0: 00000011 01 ffffffffffffffffffffffffffffffff
a gap too great: 00000011 01 1e17b84357691b6403d0da8000000001
a gap cut short: 00000010 01 000000000000000000000000000000
run 0: 00000024 02 0000000000000000 0000000000000001 00 00 00 00000001 00000000 00000000 00000004
number 0: 00000024 02 0000000000000001 0000000000000000 00 00 00 00000001 00000000 00000000 00000004
params 16: 00000024 02 t 10 00 00 00000001 00000000 00000000 00000004
race 2: 00000024 02 t 00 02 00 00000001 00000000 00000000 00000004
a flag of 2: 00000028 02 t 00 00 02 00000000000000000000000000000000 00000000
a cutoff too great: 00000028 02 t 00 00 01 0f0bdc21abb48db201e86d4000000001 00000000
a cutoff too small: 00000028 02 t 00 00 01 f0f423de544b724dfe1792bfffffffff 00000000
too many changes: 00000018 02 t 00 00 00 00002711
more changes than are there: 00000024 02 t 00 00 00 00000002 00000000 00000000 00000004
a column too great: 00000024 02 t 00 00 00 00000001 00002710 00000000 00000004
a column twice: 00000030 02 t 00 00 00 00000002 00000003 z 00000003 z
columns that fall: 00000030 02 t 00 00 00 00000002 00000003 z 00000002 z
a low above its high: 00000024 02 t 00 00 00 00000001 00000000 00000000 ffffffff
a low too small: 00000024 02 t 00 00 00 00000001 00000000 c46535ff 00000000
a high too great: 00000024 02 t 00 00 00 00000001 00000000 00000000 3b9aca01
a byte less: 00000023 02 t 00 00 00 00000001 00000000 00000000 000000
a byte more: 00000025 02 t 00 00 00 00000001 00000000 00000000 00000004 00
a value too great: 00000011 03 0f0bdc21abb48db201e86d4000000001
a value too small: 00000011 03 f0f423de544b724dfe1792bfffffffff
a byte more: 00000012 03 00000000000000000000000000000000 00
none asked for: 00000015 04 t 00000000
a byte less: 00000014 04 t 000000
run 0: 00000015 04 0000000000000000 0000000000000001 00000001
number 0: 00000011 05 0000000000000001 0000000000000000
a byte less: 00000010 05 0000000000000001 00000000000000
a byte more: 00000012 05 t 00
number 0: 00000011 06 0000000000000001 0000000000000000
a byte less: 00000010 06 0000000000000001 00000000000000
a byte more: 00000012 06 t 00
number 0: 00000011 07 0000000000000001 0000000000000000
a byte less: 00000010 07 0000000000000001 00000000000000
a byte more: 00000012 07 t 00
a byte more: 00000002 08 00
a tag of none: 00000001 00
a tag of none: 00000001 09
a tag of none: 00000001 10
a tag of none: 00000001 11
a tag of none: 00000001 16
a tag of none: 00000001 ff
";

impl Side for Order {
    fn decode(alloc: Global, bytes: &[u8]) -> Result<Decoded<Order>, AllocError> {
        decode_order(alloc, bytes)
    }

    fn copy(buffer: &mut Vec<u8>, alloc: Global, bytes: &[u8]) -> bool {
        match decode_order(alloc, bytes) {
            Ok(Decoded::Whole { message, .. }) => {
                let is_written = encode_order(buffer, &message).is_ok();
                drop(message);
                is_written
            }
            _ => false,
        }
    }
}

#[test]
fn reads_and_writes_orders(rt: HostRuntime) {
    each_is_so::<Order>(&rt, rt.alloc(), ORDERS, true);
    each_is_so::<Order>(&rt, rt.alloc(), NO_ORDERS, false);
}
