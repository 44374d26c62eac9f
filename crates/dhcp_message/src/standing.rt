// What stands at an offset of a message's options, and all of them, one after another (RFC 2132, section 2; docs/RULES.md, 'The message').
ghost use Rattle.std.specs.Prelude.{◌≡◌};
ghost use Rattle.dhcp_message.specs.Standing.{here_at, options_of, GivesOption, bytes_left};

use crate::layout::{END, HEADER_SIZE, LENGTH_AT, OPTION_HEAD, PAD, PAD_SIZE};
use crate::{Here, Options};

// What stands at an offset of the options.
#[tactic(auto, unfolding(crate::specs::Standing::here_at))]
pub fn here_at(message: &[u8], at: usize) -> Here
    ensures { result ≡ here_at message.now at }
{
    if message.len() <= at {
        return Here::Broken;
    }
    let code = message[at];
    if code == PAD {
        return Here::Pad;
    }
    if code == END {
        return Here::End;
    }
    let next = at + LENGTH_AT;
    if message.len() <= next {
        return Here::Broken;
    }
    let len = message[next] as usize;
    if len < message.len() - next {
        return Here::Opt {
            code,
            size: OPTION_HEAD + len,
        };
    }
    Here::Broken
}

impl<'m> Options<'m> {
    // All options of a message.
    pub fn new(message: &'m [u8]) -> Options<'m>
        ensures { result ≡ options_of message.entry }
    {
        Options {
            message,
            at: HEADER_SIZE,
        }
    }
}

impl<'m> Iterator for Options<'m> {
    type Item = (usize, Here);

    ghost next_gives = { GivesOption };

    ghost remaining = { bytes_left };

    fn next(&mut self) -> Option<(usize, Here)> {
        let at = self.at;
        let here = here_at(self.message, at);
        let taken = match here {
            Here::Broken => return None,
            Here::End => self.message.len() - at,
            Here::Pad => PAD_SIZE,
            Here::Opt { code: _, size } => size,
        };
        self.at = at + taken;
        Some((at, here))
    }
}
