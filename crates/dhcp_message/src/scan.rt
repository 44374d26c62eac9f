// Checks 2 to 7: one pass over the options, and what it finds. Delayed authentication and authentication by a nonce both begin with them.
ghost use Rattle.std.specs.Prelude.{◌≡◌, ◌<◌, ◌≤◌, ◌^◌, length, drop};
ghost use Rattle.octets.specs.Bytes.{starts};
ghost use Rattle.dhcp_message.specs.Layout.{cookie_at, header_size, magic_cookie};
ghost use Rattle.dhcp_message.specs.Shape.{shape_of};
ghost use Rattle.dhcp_message.specs.Scan.{seen_of, scan_of, shape_found};

use crate::layout::{AUTHENTICATION, COOKIE, COOKIE_AT, MESSAGE_LEAST, MESSAGE_MOST, RELAY};
use crate::{Here, Options, Places};
use refusal::Refusal;

// What a scan has found: how many options 90 and 82, where the last of each stands, and the bytes that 82 takes. Counts and no enum: 5, 6 and 7 go by how many
// there are, and two of one code may still be followed by a third.
#[derive(Clone, Copy)]
pub(crate) struct Tally {
    pub n90: usize,
    pub at90: usize,
    pub n82: usize,
    pub at82: usize,
    pub size82: usize,
}

// What was found of all options, and End's offset.
#[derive(Clone, Copy)]
pub(crate) struct Scanned {
    pub found: Tally,
    pub end: usize,
}

// What is found after one option more.
#[tactic(auto, unfolding(crate::specs::Scan::seen_of))]
fn seen(f: Tally, code: u8, at: usize, size: usize) -> Tally
    requires n90_bound { f.n90 < 2 ^ 63 }
    requires n82_bound { f.n82 < 2 ^ 63 }
    ensures { result ≡ seen_of f code at size }
{
    if code == AUTHENTICATION {
        return Tally {
            n90: f.n90 + 1,
            at90: at,
            ..f
        };
    }
    if code == RELAY {
        return Tally {
            n82: f.n82 + 1,
            at82: at,
            size82: size,
            ..f
        };
    }
    f
}

// One pass over the options, up to the first End: it ends what is to be read (RFC 2132, section 3.2). None where an option passes the message's end, or
// End is missing.
fn scan_options(message: &[u8]) -> Option<Scanned>
    ensures { result ≡ scan_of message.now }
{
    let mut found = Tally {
        n90: 0,
        at90: 0,
        n82: 0,
        at82: 0,
        size82: 0,
    };
    for (at, here) in Options::new(message) {
        match here {
            Here::End => return Some(Scanned { found, end: at }),
            Here::Opt { code, size } => found = seen(found, code, at, size),
            // No Broken is given.
            Here::Pad | Here::Broken => {}
        }
    }
    None
}

// Checks 5 to 7.
#[tactic(auto, unfolding(crate::specs::Scan::shape_found))]
fn shape_found(f: Tally, end: usize) -> Result<Places, Refusal>
    ensures { result ≡ shape_found f end }
{
    if f.n90 == 0 {
        return Err(Refusal::NoAuthentication);
    }
    if 1 < f.n90 {
        return Err(Refusal::RepeatedAuthentication);
    }
    if f.n82 == 0 {
        return Ok(Places {
            at: f.at90,
            cut: end,
            gap: 0,
        });
    }
    if 1 < f.n82 {
        return Err(Refusal::RelayInformation);
    }
    Ok(Places {
        at: f.at90,
        cut: f.at82,
        gap: f.size82,
    })
}

// Whether the magic cookie stands before the options. Byte by byte, as `starts` goes, here and in `has_method`: the library's `starts_with` has a definition
// of its own, and a law more would have to say that the two agree.
fn is_cookie(message: &[u8]) -> bool
    requires { header_size ≤ length message.now }
    ensures { result ≡ starts magic_cookie (drop cookie_at message.now) }
{
    message[COOKIE_AT] == COOKIE[0]
        && message[COOKIE_AT + 1] == COOKIE[1]
        && message[COOKIE_AT + 2] == COOKIE[2]
        && message[COOKIE_AT + 3] == COOKIE[3]
}

// Checks 2 to 7: the lowest that applies, or where option 90 and option 82 stand.
pub fn shape_of(message: &[u8]) -> Result<Places, Refusal>
    ensures { result ≡ shape_of message.now }
{
    if message.len() < MESSAGE_LEAST || MESSAGE_MOST < message.len() {
        return Err(Refusal::MessageSize);
    }
    if !is_cookie(message) {
        return Err(Refusal::WrongCookie);
    }
    let Some(scanned) = scan_options(message) else {
        return Err(Refusal::BrokenOptions);
    };
    shape_found(scanned.found, scanned.end)
}
