// A classic capture (the pcap file format that tcpdump writes): the file's header, a record's header, and which part of a record's frame is the
// payload of a DHCP datagram. docs/RULES.md, 'A recording'.
// Not here: reading the file, and judging a payload (capture_verdict).
#![tactic(auto)]

pub use frame::payload_place;
pub use header::{file_header, record_header};
pub use layout::{FILE_HEADER_SIZE, FRAME_MOST, RECORD_HEADER_SIZE};

mod frame;
mod header;
mod layout;

// The byte order of the numbers in the file's header and in the records' headers.
#[derive(Clone, Copy, Debug, PartialEq, Eq)]
pub enum Order {
    LowFirst,
    HighFirst,
}

// What a record's header says: so many bytes of the frame were captured, and so many the frame had.
#[derive(Clone, Copy, Debug, PartialEq, Eq)]
pub struct RecordHeader {
    pub captured: usize,
    pub original: usize,
}

// Which part of a frame is judged: from this offset so many bytes.
#[derive(Clone, Copy, Debug, PartialEq, Eq)]
pub struct Payload {
    pub at: usize,
    pub size: usize,
}
