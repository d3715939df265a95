use crate::document::document;
use crate::testing::self_test;
use std::alloc::Global;
use std::process::Abort;
use std::test::Fail;

#[test]
fn documents(rt: HostRuntime) -> Result<(), Fail> {
    let alloc = rt.alloc();
    let one =
        "<doc><p Id=\"p1\">Paragraph 1.</p><Signature xmlns=\"http://www.w3.org/2000/09/xmldsig#\"><SignedInfo><CanonicalizationMethod Algorithm=\"http://www.w3.org/2001/10/xml-exc-c14n#\"/><SignatureMethod Algorithm=\"http://www.w3.org/2001/04/xmldsig-more#hmac-sha256\"/><Reference URI=\"#p1\"><DigestMethod Algorithm=\"http://www.w3.org/2001/04/xmlenc#sha256\"/><DigestValue/></Reference></SignedInfo><SignatureValue/></Signature></doc>";
    assert_eq!(rt; document(alloc, 1)?.as_str(), one);
    Ok(())
}

/// Asserts the line of so many paragraphs.
fn expect(rt: &impl Abort, alloc: Global, paragraphs: u32, line: &str) {
    let Ok(told) = self_test(alloc, paragraphs) else {
        panic!(rt);
    };
    assert!(rt; told.bytes() == line.as_bytes(), "{}", line);
}

#[test]
fn lines(rt: HostRuntime) {
    let alloc = rt.alloc();
    let one = "selftest 1 references 1 octets 27 bytes 535 valid\n";
    expect(&rt, alloc, 1, one);
    let thousand = "selftest 1000 references 64 octets 1838 bytes 42122 valid\n";
    expect(&rt, alloc, 1000, thousand);
}

/// The largest number.
#[test]
fn a_hundred_thousand_paragraphs(rt: HostRuntime) {
    let line = "selftest 100000 references 64 octets 1838 bytes 3489126 valid\n";
    expect(&rt, rt.alloc(), 100_000, line);
}
