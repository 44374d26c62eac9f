// Which part of a frame is the payload of a DHCP datagram: Ethernet, IPv4 (RFC 791), UDP (RFC 768). Each length is looked at before what it covers is
// read, so that nothing is read that was not captured. No checksum is judged.
ghost use Rattle.std.specs.Prelude.{◌≡◌, ◌+◌, ◌≤◌, ◌<◌, ◌^◌, length};
ghost use Rattle.capture.specs.Layout.{field_size, packet_at, ip_header_least, udp_header_size};
ghost use Rattle.capture.specs.Frame.{field_at, is_dhcp_port, is_whole_udp, datagram_place, place_of};

use crate::Payload;
use crate::layout::{
    CLIENT_PORT, DESTINATION_AT, ETHER_IPV4, ETHER_TYPE_AT, FIELD_SIZE, FRAGMENT_AT,
    FRAGMENT_BELOW, IP_HEADER_LEAST, IP_VERSION, IP_WORD, LENGTH_AT, PACKET_AT, PROTOCOL_AT,
    SERVER_PORT, SOURCE_AT, TOTAL_LENGTH_AT, UDP, UDP_HEADER_SIZE,
};

// The field of two bytes at an offset.
fn field_at(s: &[u8], at: usize) -> u64
    requires { at + field_size ≤ length s.now }
    ensures { (result ≡ field_at s.now at) × (result < 2 ^ 16) }
{
    octets::big(s, at, FIELD_SIZE)
}

fn is_dhcp_port(port: u64) -> bool
    ensures { result ≡ is_dhcp_port port }
{
    port == SERVER_PORT || port == CLIENT_PORT
}

// Whether a frame that has room for the least IP header is of type 0800 and IP version 4, protocol UDP, and not a fragment.
fn is_whole_udp(frame: &[u8]) -> bool
    requires { packet_at + ip_header_least ≤ length frame.now }
    ensures { result ≡ is_whole_udp frame.now }
{
    field_at(frame, ETHER_TYPE_AT) == ETHER_IPV4
        && frame[PACKET_AT] / 16 == IP_VERSION
        && frame[PACKET_AT + PROTOCOL_AT] == UDP
        && field_at(frame, PACKET_AT + FRAGMENT_AT) % FRAGMENT_BELOW == 0
}

// The payload of the datagram at an offset of the frame, for which the packet leaves `room` bytes.
fn datagram_place(frame: &[u8], at: usize, room: usize) -> Option<Payload>
    requires udp_header_size_le_room { udp_header_size ≤ room }
    requires room_in_bounds { at + room ≤ length frame.now }
    ensures { result ≡ datagram_place frame.now at room }
{
    let size = field_at(frame, at + LENGTH_AT) as usize;
    if size < UDP_HEADER_SIZE || room < size {
        return None;
    }
    if !is_dhcp_port(field_at(frame, at + SOURCE_AT))
        && !is_dhcp_port(field_at(frame, at + DESTINATION_AT))
    {
        return None;
    }
    Some(Payload {
        at: at + UDP_HEADER_SIZE,
        size: size - UDP_HEADER_SIZE,
    })
}

// Where the DHCP payload of a record's captured bytes stands, if the frame had `original` bytes; None where the frame is no whole DHCP datagram.
pub fn payload_place(frame: &[u8], original: usize) -> Option<Payload>
    ensures { result ≡ place_of frame.now original }
{
    if frame.len() != original {
        return None;
    }
    if frame.len() < PACKET_AT + IP_HEADER_LEAST {
        return None;
    }
    if !is_whole_udp(frame) {
        return None;
    }
    let header = (frame[PACKET_AT] % 16) as usize * IP_WORD;
    let total = field_at(frame, PACKET_AT + TOTAL_LENGTH_AT) as usize;
    if header < IP_HEADER_LEAST {
        return None;
    }
    if total < header + UDP_HEADER_SIZE {
        return None;
    }
    if frame.len() - PACKET_AT < total {
        return None;
    }
    datagram_place(frame, PACKET_AT + header, total - header)
}
