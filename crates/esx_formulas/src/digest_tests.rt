use crate::content_key;
use sha2::{Digest, Sha256};

/// The key as it is defined, by the hasher of one block at a time.
fn first_of_digest(bytes: &[u8]) -> u64 {
    let [a, b, c, d, e, f, g, h, ..] = Sha256::digest(bytes);
    u64::from_be_bytes([a, b, c, d, e, f, g, h])
}

#[test]
fn a_key_is_of_the_digest_at_each_length(rt: HostRuntime) {
    let mut bytes = [0_u8; 4096];
    for i in 0..4096 {
        bytes[i] = (i * 31 % 251) as u8;
    }
    for length in 0..601 {
        let page = &bytes[..length];
        assert_eq!(rt; content_key(page), first_of_digest(page));
    }
    assert_eq!(rt; content_key(&bytes), first_of_digest(&bytes));
}
