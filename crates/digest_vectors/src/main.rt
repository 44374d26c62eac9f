// Writes RFC 1321's seven digests (appendix A.5) and RFC 2202's HMAC-MD5 cases 1 to 5 (section 2), one to a line with its case's name.
// What they should be, from the RFCs, stands in the file `stdout` beside this folder.
#![tactic(auto)]

use md5_digest::DIGEST_SIZE;
use std::io;

fn show(rt: &impl Print, name: &str, bytes: [u8; DIGEST_SIZE]) -> io::Result<()> {
    print!(rt; "{name}")?;
    for byte in bytes {
        print!(rt; "{byte:02x}")?;
    }
    rt.write_all(b"\n")
}

fn show_md5(rt: &impl Print, name: &str, message: &[u8]) -> io::Result<()> {
    show(rt, name, md5_digest::handed(md5_digest::md5(message)))
}

fn show_hmac(rt: &impl Print, name: &str, key: &[u8], message: &[u8]) -> io::Result<()> {
    show(rt, name, md5_digest::handed(hmac_md5::hmac(key, message)))
}

fn main(rt: HostRuntime) -> io::Result<()> {
    show_md5(&rt, "md5 1 ", b"")?;
    show_md5(&rt, "md5 2 ", b"a")?;
    show_md5(&rt, "md5 3 ", b"abc")?;
    show_md5(&rt, "md5 4 ", b"message digest")?;
    show_md5(&rt, "md5 5 ", b"abcdefghijklmnopqrstuvwxyz")?;
    show_md5(
        &rt,
        "md5 6 ",
        b"ABCDEFGHIJKLMNOPQRSTUVWXYZabcdefghijklmnopqrstuvwxyz0123456789",
    )?;
    show_md5(
        &rt,
        "md5 7 ",
        b"12345678901234567890123456789012345678901234567890123456789012345678901234567890",
    )?;
    show_hmac(&rt, "hmac-md5 1 ", &[0x0bu8; 16], b"Hi There")?;
    show_hmac(&rt, "hmac-md5 2 ", b"Jefe", b"what do ya want for nothing?")?;
    show_hmac(&rt, "hmac-md5 3 ", &[0xaau8; 16], &[0xddu8; 50])?;
    show_hmac(
        &rt,
        "hmac-md5 4 ",
        b"\x01\x02\x03\x04\x05\x06\x07\x08\x09\x0a\x0b\x0c\x0d\x0e\x0f\x10\x11\x12\x13\x14\x15\x16\x17\x18\x19",
        &[0xcdu8; 50],
    )?;
    show_hmac(&rt, "hmac-md5 5 ", &[0x0cu8; 16], b"Test With Truncation")
}
