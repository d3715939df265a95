use crate::lengths::length_in;
use sig_base::{MacMethod, names_in};
use std::alloc::Global;

/// Whether the content gives these bits of an HMAC with SHA-256.
fn gives(text: &str, bits: Option<u32>) -> bool {
    length_in(MacMethod::HmacSha256, text) == bits
}

#[test]
fn lengths_of_whole_octets(rt: HostRuntime) {
    assert!(rt; gives("128", Some(128)));
    assert!(rt; gives(" 0128\n", Some(128)));
    assert!(rt; gives("256", Some(256)));
    assert!(rt; gives("0", Some(0)));
}

#[test]
fn contents_that_are_no_number(rt: HostRuntime) {
    assert!(rt; gives("12 8", None));
    assert!(rt; gives("", None));
    assert!(rt; gives(" ", None));
    assert!(rt; gives("+8", None));
    assert!(rt; gives("8.", None));
}

#[test]
fn lengths_that_an_hmac_does_not_have(rt: HostRuntime) {
    assert!(rt; gives("84", None));
    assert!(rt; gives("264", None));
    assert!(rt; gives("8888888888888888888888888888888888888888", None));
    assert!(rt; length_in(MacMethod::HmacSha512, "512") == Some(512));
    assert!(rt; length_in(MacMethod::HmacSha512, "520") == None);
}

/// Whether the text holds these two names.
fn holds(alloc: Global, text: &str, first: &str, second: &str) -> bool {
    match names_in(alloc, text) {
        Ok(names) => {
            names.len() == 2
                && names.get(0).is_some_and(|name| name.as_str() == first)
                && names.get(1).is_some_and(|name| name.as_str() == second)
        }
        Err(_) => false,
    }
}

#[test]
fn names_between_white_space(rt: HostRuntime) {
    assert!(rt; holds(rt.alloc(), "a  b", "a", "b"));
    assert!(rt; holds(rt.alloc(), " #default ns ", "#default", "ns"));
    assert!(rt; holds(rt.alloc(), "\ta\t\r\nb\n", "a", "b"));
    assert!(rt; holds(rt.alloc(), "é ü", "é", "ü"));
}

#[test]
fn texts_without_names(rt: HostRuntime) {
    assert!(rt; names_in(rt.alloc(), "").is_ok_and(|names| names.is_empty()));
    assert!(rt; names_in(rt.alloc(), " \t").is_ok_and(|names| names.is_empty()));
}
