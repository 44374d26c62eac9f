// The writers of what a seal puts into option 90: counter, secret id and MAC.
ghost use Rattle.std.specs.Prelude.{◌≡◌};
ghost use Rattle.dhcp_message.specs.Seal.{fields_put, mac_put};

use crate::layout::{COUNTER_SIZE, FIELDS_SIZE, MAC_SIZE, SEAL_SIZE, SECRET_ID_SIZE};

// Writes counter and secret id to the part of option 90 that a seal writes; a part of another size is left as it is.
#[tactic(auto, using(crate::proofs::Fields::fields_put_lem), unfolding(crate::specs::Seal::fields_put))]
pub fn put_fields(part: &mut [u8], counter: u64, id: u32)
    ensures { part.new ≡ fields_put part.old counter id }
{
    if part.len() != SEAL_SIZE {
        return;
    }
    octets::put_big(part, 0, COUNTER_SIZE, counter);
    octets::put_big(part, COUNTER_SIZE, SECRET_ID_SIZE, id as u64);
}

// Writes the MAC there.
#[tactic(auto, unfolding(crate::specs::Seal::mac_put))]
pub fn put_mac(part: &mut [u8], mac: [u8; MAC_SIZE])
    ensures { part.new ≡ mac_put part.old mac }
{
    if part.len() != SEAL_SIZE {
        return;
    }
    octets::copy(&mac, part, FIELDS_SIZE);
}
