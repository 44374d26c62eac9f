// The covered image: the bytes of a message that the MAC is taken over.
ghost use Rattle.std.specs.Prelude.{◌≡◌, ◌+◌, ◌≤◌, length};
ghost use Rattle.octets.specs.Bytes.{written, zeros};
ghost use Rattle.dhcp_message.specs.Layout.{mac_at, mac_size, full_size};
ghost use Rattle.dhcp_message.specs.Image.{head_zero, cover_fits, image_at, cover_size, cover_left};

use crate::Auth;
use crate::layout::{FULL_SIZE, GIADDR_AT, GIADDR_SIZE, HOPS_AT, HOPS_SIZE, MAC_AT, MAC_SIZE};

// Whether option 82 lies in a message of a size, what is left without it fits a room, and option 90 lies in the message, wholly before option 82 or
// behind its end.
#[tactic(auto, unfolding(crate::specs::Image::cover_fits))]
fn covers(size: usize, room: usize, auth: Auth) -> bool
    ensures { result ≡ cover_fits size room auth }
{
    auth.cut <= size
        && auth.gap <= size - auth.cut
        && size - auth.gap <= room
        && FULL_SIZE <= size
        && auth.at <= size - FULL_SIZE
        && (auth.at + FULL_SIZE <= auth.cut || auth.cut + auth.gap <= auth.at)
}

// Where option 90 stands in the image: where option 82 stands before it, as many bytes earlier as option 82 takes. So many there must be before it.
#[tactic(auto, unfolding(crate::specs::Image::image_at))]
fn image_at(auth: Auth) -> usize
    requires { auth.cut ≤ auth.at → auth.gap ≤ auth.at }
    ensures { result ≡ image_at auth }
{
    if auth.at < auth.cut {
        auth.at
    } else {
        auth.at - auth.gap
    }
}

// Sets hops, giaddr and the MAC of an option 90 at an offset to 0.
fn blank(out: &mut [u8], at: usize)
    requires { at + full_size ≤ length out.old }
    ensures { out.new ≡ written (at + mac_at) (zeros mac_size) (head_zero out.old) }
{
    octets::clear(out, HOPS_AT, HOPS_SIZE);
    octets::clear(out, GIADDR_AT, GIADDR_SIZE);
    octets::clear(out, at + MAC_AT, MAC_SIZE);
}

// Writes the covered image of a message to the front of out and returns its length; None, and out as it was, where the offsets or the room
// don't fit.
pub fn cover(message: &[u8], auth: Auth, out: &mut [u8]) -> Option<usize>
    ensures { (result ≡ cover_size message.now auth out.old)
        × (out.new ≡ cover_left message.now auth out.old) }
{
    if !covers(message.len(), out.len(), auth) {
        return None;
    }
    let at = image_at(auth);
    let cut = auth.cut;
    let next = cut + auth.gap;
    octets::copy(&message[..cut], out, 0);
    octets::copy(&message[next..], out, cut);
    blank(out, at);
    Some(message.len() - auth.gap)
}
