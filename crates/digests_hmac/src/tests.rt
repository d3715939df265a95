//! Vectors from FIPS 180-4's examples, RFC 2202 and RFC 4231.

use crate::{Digest, DigestSink, KeyFault, KeyTable, MacSink, digest, hmac, hmac_matches};
use sig_base::{DigestMethod, MacMethod, OctetSink, Put};
use std::alloc::{AllocError, Global};

/// The octets in hexadecimal digits.
fn hexadecimal(alloc: Global, digest: &Digest) -> Result<String, AllocError> {
    let mut text = String::new(alloc);
    for octet in digest.bytes() {
        for digit in [*octet / 16, *octet % 16] {
            text.push(char::from_digit(digit as u32, 16).unwrap_or('?'))?;
        }
    }
    Ok(text)
}

const ABC_BY_SHA384: &str =
    "cb00753f45a35e8bb5a03d699ac65007272c32ab0eded1631a8b605a43ff5bed8086072ba1e7cc2358baeca134c825a7";

const ABC_BY_SHA512: &str =
    "ddaf35a193617abacc417349ae20413112e6fa4e89a97ea20a9eeee64b55d39a2192992a274fc1a836ba3c23a3feebbd454d4423643ce80e2a9ac94fa54ca49f";

#[test]
fn digests(rt: HostRuntime) -> Result<(), AllocError> {
    use DigestMethod::{Sha1, Sha224, Sha256, Sha384, Sha512};
    for (method, message, want) in [
        (Sha1, "", "da39a3ee5e6b4b0d3255bfef95601890afd80709"),
        (Sha1, "abc", "a9993e364706816aba3e25717850c26c9cd0d89d"),
        (
            Sha224,
            "abc",
            "23097d223405d8228642a477bda255b32aadbce4bda0b3f7e36c9da7",
        ),
        (
            Sha256,
            "",
            "e3b0c44298fc1c149afbf4c8996fb92427ae41e4649b934ca495991b7852b855",
        ),
        (
            Sha256,
            "abc",
            "ba7816bf8f01cfea414140de5dae2223b00361a396177a9cb410ff61f20015ad",
        ),
        (Sha384, "abc", ABC_BY_SHA384),
        (Sha512, "abc", ABC_BY_SHA512),
    ] {
        let whole = hexadecimal(rt.alloc(), &digest(method, message.as_bytes()))?;
        assert_eq!(rt; whole.as_str(), want);
        let mut sink = DigestSink::new(method);
        for octet in message.as_bytes() {
            assert!(rt; sink.put(&[*octet]) == Put::Done);
        }
        let pieces = hexadecimal(rt.alloc(), &sink.finish())?;
        assert_eq!(rt; pieces.as_str(), want);
    }
    Ok(())
}

const SHORT_KEY_BY_SHA384: &str =
    "af45d2e376484031617f78d2b58a6b1b9c7ef464f5a01b47e42ec3736322445e8e2240ca5e69e2c78b3239ecfab21649";

const SHORT_KEY_BY_SHA512: &str =
    "164b7a7bfcf819e2e395fbe73b56e0a387bd64222e831fd610270cd7ea2505549758bf75c05a994a6d034f65f8f0e6fdcaeab1a34d4a6b4b636e070a38bce737";

const LONG_KEY_BY_SHA384: &str =
    "4ece084485813e9088d2c63a041bc5b44f9ef1012a2b588f3cd11f05033ac4c60c2ef6ab4030fe8296248df163f44952";

const LONG_KEY_BY_SHA512: &str =
    "80b24263c7c1a3ebb71493c1dd7be8b49b46d1f41b4aeec1121b013783f8f3526b56d037e05f2598bd0fd2215d6a1e5295e64f73f63f0aec8b915a985d786598";

#[test]
fn macs(rt: HostRuntime) -> Result<(), AllocError> {
    use MacMethod::{HmacSha1, HmacSha224, HmacSha256, HmacSha384, HmacSha512};
    let short = b"Jefe".as_slice();
    let long = [0xaau8; 131];
    let question = "what do ya want for nothing?";
    let larger = "Test Using Larger Than Block-Size Key - Hash Key First";
    for (method, key, message, want) in [
        (
            HmacSha1,
            short,
            question,
            "effcdf6ae5eb2fa2d27416d5f184df9c259a7c79",
        ),
        (
            HmacSha224,
            short,
            question,
            "a30e01098bc6dbbf45690f3a7e9e6d0f8bbea2a39e6148008fd05e44",
        ),
        (
            HmacSha256,
            short,
            question,
            "5bdcc146bf60754e6a042426089575c75a003f089d2739839dec58b964ec3843",
        ),
        (HmacSha384, short, question, SHORT_KEY_BY_SHA384),
        (HmacSha512, short, question, SHORT_KEY_BY_SHA512),
        (
            HmacSha1,
            &long[..80],
            larger,
            "aa4ae5e15272d00e95705637ce8a3b55ed402112",
        ),
        (
            HmacSha224,
            &long,
            larger,
            "95e9a0db962095adaebe9b2d6f0dbce2d499f112f2d2b7273fa6870e",
        ),
        (
            HmacSha256,
            &long,
            larger,
            "60e431591ee0b67f0d8a26aacbf5b77f8e0bc6213728c5140546040f0ee37f54",
        ),
        (HmacSha384, &long, larger, LONG_KEY_BY_SHA384),
        (HmacSha512, &long, larger, LONG_KEY_BY_SHA512),
    ] {
        let whole = hexadecimal(rt.alloc(), &hmac(method, key, message.as_bytes()))?;
        assert_eq!(rt; whole.as_str(), want);
        let mut sink = MacSink::new(method, key);
        for octet in message.as_bytes() {
            assert!(rt; sink.put(&[*octet]) == Put::Done);
        }
        let pieces = hexadecimal(rt.alloc(), &sink.finish())?;
        assert_eq!(rt; pieces.as_str(), want);
    }
    Ok(())
}

#[test]
fn keys_of_a_block_and_longer(rt: HostRuntime) {
    let longer = [0xaau8; 65];
    let hashed = digest(DigestMethod::Sha256, &longer);
    assert!(rt;
        hmac(MacMethod::HmacSha256, &longer, b"m").bytes()
            == hmac(MacMethod::HmacSha256, hashed.bytes(), b"m").bytes()
    );
    let block = [0xaau8; 64];
    let hashed = digest(DigestMethod::Sha256, &block);
    assert!(rt;
        hmac(MacMethod::HmacSha256, &block, b"m").bytes()
            != hmac(MacMethod::HmacSha256, hashed.bytes(), b"m").bytes()
    );
}

#[test]
fn truncated_values(rt: HostRuntime) {
    let full = hmac(MacMethod::HmacSha1, b"Jefe", b"m");
    assert!(rt; hmac_matches(&full, 80, &full.bytes()[..10]));
    assert!(rt; !hmac_matches(&full, 80, &full.bytes()[..9]));
    assert!(rt; !hmac_matches(&full, 80, full.bytes()));
    assert!(rt; !hmac_matches(&full, 80, b""));
}

#[test]
fn faults_of_key_files(rt: HostRuntime) {
    for (file, fault) in [
        (b"4a6 k".as_slice(), KeyFault::BadLine(1)),
        (b"4a k\n4b k", KeyFault::Repeated(2, 1)),
        (b"4a k\n\n#\n4b k\nzz", KeyFault::Repeated(4, 1)),
        (b"# \xff\n", KeyFault::BadLine(1)),
        (b"\n# c\r\n4a \n", KeyFault::BadLine(3)),
        (b"4a k\r", KeyFault::BadLine(1)),
        (b"4a k\n\r", KeyFault::BadLine(2)),
        (b"4a  \tk\n", KeyFault::BadLine(1)),
        (b"\xef\xbb\xbf4a k\n", KeyFault::BadLine(1)),
    ] {
        assert!(rt; KeyTable::read(rt.alloc(), file).err() == Some(fault));
    }
}

#[test]
fn keys_by_name(rt: HostRuntime) -> Result<(), KeyFault> {
    let one = KeyTable::read(rt.alloc(), b"#\n4a656665 k1\r\n")?;
    let Some(key) = one.find("k1") else {
        panic!(rt);
    };
    assert!(rt; key.line() == 2 && key.name() == "k1" && key.bytes() == b"Jefe".as_slice());
    assert!(rt; one.find("k").is_none());
    assert!(rt; one.only().is_some());
    let two = KeyTable::read(rt.alloc(), b"4A k\n4a  k")?;
    assert!(rt; two.find(" k").is_some());
    assert!(rt; two.only().is_none());
    assert!(rt; KeyTable::read(rt.alloc(), b"")?.only().is_none());
    Ok(())
}

/// A file of so many keys, each named by its number.
fn key_file(alloc: Global, count: u64) -> Result<String, AllocError> {
    let mut file = String::new(alloc);
    for number in 0..count {
        file.push_str(format!(in alloc; "4a {number}\n")?.as_str())?;
    }
    Ok(file)
}

#[test]
fn most_keys(rt: HostRuntime) -> Result<(), AllocError> {
    let most = key_file(rt.alloc(), 1024)?;
    assert!(rt; KeyTable::read(rt.alloc(), most.as_bytes()).is_ok());
    let more = key_file(rt.alloc(), 1025)?;
    assert!(rt; KeyTable::read(rt.alloc(), more.as_bytes()).err() == Some(KeyFault::TooMany));
    Ok(())
}
