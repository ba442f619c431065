//! Digests, keys and their texts, and codes.

use fedi_mac::{Mac, digest, hex_text, matches, read_key};
use fedi_rows::expect;
use std::test::Fail;

// The digits of digests: examples of FIPS 180-4, and one by `sha256sum`.
const DIGESTS: [(&[u8], &[u8; 64]); 3] = [
    (
        b"",
        b"e3b0c44298fc1c149afbf4c8996fb92427ae41e4649b934ca495991b7852b855",
    ),
    (
        b"abc",
        b"ba7816bf8f01cfea414140de5dae2223b00361a396177a9cb410ff61f20015ad",
    ),
    (
        &[0; 32],
        b"66687aadf862bd776c8fc18b8e9f8e20089714856ee233b3902a591d0d5f2925",
    ),
];

fn has_digest(bytes: &[u8], text: &[u8; 64]) -> bool {
    let key = digest(bytes);
    let mut upper = *text;
    upper.make_ascii_uppercase();
    hex_text(&key) == *text && read_key(&upper) == Some(key) && matches(&key, &digest(bytes))
}

#[test]
fn digests_are_those_of_the_standard(_rt: HostRuntime) -> Result<(), Fail> {
    for (bytes, text) in &DIGESTS {
        expect(has_digest(bytes, text), "a digest")?;
    }
    Ok(())
}

// A key, a text, and the digits of the text's code under the key: test cases 1 to 4, 6 and 7 of
// RFC 4231.
const CODES: [(&[u8], &[u8], &[u8; 64]); 6] = [
    (
        &[0x0b; 20],
        b"Hi There",
        b"b0344c61d8db38535ca8afceaf0bf12b881dc200c9833da726e9376c2e32cff7",
    ),
    (
        b"Jefe",
        b"what do ya want for nothing?",
        b"5bdcc146bf60754e6a042426089575c75a003f089d2739839dec58b964ec3843",
    ),
    (
        &[0xaa; 20],
        &[0xdd; 50],
        b"773ea91e36800e46854db8ebd09181a72959098b3ef8c122d9635514ced565fe",
    ),
    (
        &[
            1, 2, 3, 4, 5, 6, 7, 8, 9, 10, 11, 12, 13, 14, 15, 16, 17, 18, 19, 20, 21, 22, 23, 24,
            25,
        ],
        &[0xcd; 50],
        b"82558a389a443c0ea4cc819899f2083a85f0faa3e578f8077a2e3ff46729665b",
    ),
    (
        &[0xaa; 131],
        b"Test Using Larger Than Block-Size Key - Hash Key First",
        b"60e431591ee0b67f0d8a26aacbf5b77f8e0bc6213728c5140546040f0ee37f54",
    ),
    (
        &[0xaa; 131],
        b"This is a test using a larger than block-size key and a larger than block-size data. \
          The key needs to be hashed before being used by the HMAC algorithm.",
        b"9b09ffa71b942fcb27635fbcd5b0e944bfdc63644f0713938a7f51535c3a35e2",
    ),
];

// The text comes in two pieces.
fn has_code(key: &[u8], text: &[u8], digits: &[u8; 64]) -> bool {
    let (first, rest) = text.split_at(text.len() / 2);
    let mut mac = Mac::new(key);
    mac.push(first);
    mac.push(rest);
    hex_text(&mac.finish()) == *digits
}

#[test]
fn codes_are_those_of_the_standard(_rt: HostRuntime) -> Result<(), Fail> {
    for (key, text, digits) in &CODES {
        expect(has_code(key, text, digits), "a code")?;
    }
    Ok(())
}
