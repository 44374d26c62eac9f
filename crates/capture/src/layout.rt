// Where things stand in a capture and in its frames, and how large they are: the numbers of specs/Layout.antt, for the code.

// The file's header, by offset: magic 0, version 4, time zone 8, accuracy 12, snapshot length 16, link type 20. A number has four bytes.
pub const FILE_HEADER_SIZE: usize = 24;

pub(crate) const NUMBER_SIZE: usize = 4;

pub(crate) const MAGIC_AT: usize = 0;

pub(crate) const MAGIC: u64 = 0xa1b2c3d4;

pub(crate) const LINK_TYPE_AT: usize = 20;

pub(crate) const ETHERNET: u64 = 1;

// A record's header, by offset: seconds 0, microseconds 4, captured length 8, original length 12. The captured bytes of the frame follow it.
pub const RECORD_HEADER_SIZE: usize = 16;

pub(crate) const CAPTURED_AT: usize = 8;

pub(crate) const ORIGINAL_AT: usize = 12;

pub const FRAME_MOST: usize = 65535;

// An Ethernet frame, by offset: addresses 0, type 12; its packet starts at 14. A field has two bytes, here and below, where nothing else is said.
pub(crate) const FIELD_SIZE: usize = 2;

pub(crate) const ETHER_TYPE_AT: usize = 12;

pub(crate) const ETHER_IPV4: u64 = 0x0800;

pub(crate) const PACKET_AT: usize = 14;

// An IPv4 packet (RFC 791, section 3.1), by offset from its start: version and header length in four bits each 0, total length 2, flags and fragment
// offset 6, protocol (one byte) 9. The header length counts words of four bytes. Of the flags the highest bit is reserved, the next is Don't Fragment.
pub(crate) const IP_HEADER_LEAST: usize = 20;

pub(crate) const IP_VERSION: u8 = 4;

pub(crate) const IP_WORD: usize = 4;

pub(crate) const TOTAL_LENGTH_AT: usize = 2;

pub(crate) const FRAGMENT_AT: usize = 6;

// More Fragments and the fragment offset are what is below this.
pub(crate) const FRAGMENT_BELOW: u64 = 0x4000;

pub(crate) const PROTOCOL_AT: usize = 9;

pub(crate) const UDP: u8 = 17;

// A UDP datagram (RFC 768), by offset from its start: source port 0, destination port 2, length 4, checksum 6. DHCP's ports are RFC 2131's, section 4.1.
pub(crate) const UDP_HEADER_SIZE: usize = 8;

pub(crate) const SOURCE_AT: usize = 0;

pub(crate) const DESTINATION_AT: usize = 2;

pub(crate) const LENGTH_AT: usize = 4;

pub(crate) const SERVER_PORT: u64 = 67;

pub(crate) const CLIENT_PORT: u64 = 68;
