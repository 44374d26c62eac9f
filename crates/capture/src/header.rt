// The header of a capture's file, and that of a record.
ghost use Rattle.std.specs.Prelude.{◌≡◌, ◌+◌, ◌≤◌, ◌<◌, ◌^◌, length};
ghost use Rattle.capture.specs.Layout.{number_size, file_header_size};
ghost use Rattle.capture.specs.Records.{number_at, is_ethernet, file_header_of, record_header_of};

use crate::layout::{
    CAPTURED_AT, ETHERNET, FILE_HEADER_SIZE, FRAME_MOST, LINK_TYPE_AT, MAGIC, MAGIC_AT,
    NUMBER_SIZE, ORIGINAL_AT, RECORD_HEADER_SIZE,
};
use crate::{Order, RecordHeader};

// The number at an offset of a header. The order chooses the reader here alone, so it is no parameter of a function.
fn number_at(order: Order, s: &[u8], at: usize) -> u64
    requires { at + number_size ≤ length s.now }
    ensures { (result ≡ number_at order s.now at) × (result < 256 ^ number_size) }
{
    match order {
        Order::LowFirst => octets::little(s, at, NUMBER_SIZE),
        Order::HighFirst => octets::big(s, at, NUMBER_SIZE),
    }
}

// Whether a whole header of a file is that of Ethernet frames with numbers in this order.
fn is_ethernet(order: Order, s: &[u8]) -> bool
    requires { file_header_size ≤ length s.now }
    ensures { result ≡ is_ethernet order s.now }
{
    number_at(order, s, MAGIC_AT) == MAGIC && number_at(order, s, LINK_TYPE_AT) == ETHERNET
}

// The byte order of the numbers in a capture, from the header at the front of its file; None where it is no classic capture of Ethernet frames. The first
// word shows the byte order; of the rest only the link type counts.
pub fn file_header(s: &[u8]) -> Option<Order>
    ensures { result ≡ file_header_of s.now }
{
    if s.len() < FILE_HEADER_SIZE {
        return None;
    }
    if is_ethernet(Order::LowFirst, s) {
        return Some(Order::LowFirst);
    }
    if is_ethernet(Order::HighFirst, s) {
        return Some(Order::HighFirst);
    }
    None
}

// What the header at the front of a record says; None where the file is cut here: the header is not all there, or its captured length is above FRAME_MOST.
pub fn record_header(order: Order, s: &[u8]) -> Option<RecordHeader>
    ensures { result ≡ record_header_of order s.now }
{
    if s.len() < RECORD_HEADER_SIZE {
        return None;
    }
    let captured = number_at(order, s, CAPTURED_AT) as usize;
    if FRAME_MOST < captured {
        return None;
    }
    Some(RecordHeader {
        captured,
        original: number_at(order, s, ORIGINAL_AT) as usize,
    })
}
