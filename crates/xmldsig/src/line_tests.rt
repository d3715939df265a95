//! Whole command lines over files in memory.

use crate::ending::Status;
use crate::signed_tests::{C10, DIGEST, HELLO, OBJECT, SHA256, TWO, joined, reference, signature};
use crate::tests::{DOCUMENT, KEYS, USAGE};
use crate::top::run;
use sig_base::NoMemory;
use sig_outside::{MemFolder, MemKeeper, MemSink, ViewKeeper};
use std::alloc::Global;
use std::process::Abort;
use std::test::Fail;

/// How a run ends: its status, what stands on out and on err, and how many names were asked for.
#[derive(Clone, Copy)]
pub(crate) struct End<'e> {
    pub(crate) status: Status,
    pub(crate) out: &'e str,
    pub(crate) err: &'e str,
    pub(crate) asked: usize,
    /// The room on err.
    pub(crate) room: usize,
}

/// The end of a run that printed this on out.
pub(crate) fn printed(status: Status, out: &str) -> End<'_> {
    End {
        status,
        out,
        err: "",
        asked: 1,
        room: 100,
    }
}

/// The end of a run that was refused by this line.
fn refused(err: &str, asked: usize) -> End<'_> {
    End {
        status: Status::Refused,
        out: "",
        err,
        asked,
        room: 100,
    }
}

fn words_of(alloc: Global, line: &str) -> Result<Vec<String>, NoMemory> {
    let mut words = Vec::new(alloc);
    for word in line.split(' ') {
        words.push(String::from_str(alloc, word)?)?;
    }
    Ok(words)
}

/// The document, the key file, and an empty file.
pub(crate) fn folder_of(alloc: Global, document: &str) -> Result<MemFolder, NoMemory> {
    let mut folder = MemFolder::new(alloc);
    folder.add("d.xml", document.as_bytes())?;
    folder.add("k.txt", KEYS.as_bytes())?;
    folder.add("e.bin", b"")?;
    folder.add("c.txt", b"x y\n")?;
    Ok(folder)
}

/// Runs a line over a document with these keepers, and asserts how it ends.
fn expect(
    rt: &impl Abort,
    alloc: Global,
    document: &str,
    line: &str,
    keepers: &mut Vec<Box<dyn ViewKeeper>>,
    end: End<'_>,
) -> Result<(), NoMemory> {
    expect_over(
        rt,
        alloc,
        &mut folder_of(alloc, document)?,
        line,
        keepers,
        end,
    )
}

/// The same over a folder.
pub(crate) fn expect_over(
    rt: &impl Abort,
    alloc: Global,
    folder: &mut MemFolder,
    line: &str,
    keepers: &mut Vec<Box<dyn ViewKeeper>>,
    end: End<'_>,
) -> Result<(), NoMemory> {
    let words = words_of(alloc, line)?;
    let mut out = MemSink::with_room(alloc, 2000)?;
    let mut err = MemSink::with_room(alloc, end.room)?;
    let status = run(alloc, &words, folder, keepers, &mut out, &mut err);
    assert!(rt; out.bytes() == end.out.as_bytes(), "{}", line);
    assert!(rt; err.bytes() == end.err.as_bytes(), "{}", line);
    assert_eq!(rt; status, end.status, "{}", line);
    assert!(rt; folder.asked_name(end.asked).is_none(), "{}", line);
    Ok(())
}

#[test]
fn lines(rt: HostRuntime) -> Result<(), Fail> {
    let alloc = rt.alloc();
    let usage = End {
        status: Status::Usage,
        out: "",
        err: USAGE,
        asked: 0,
        room: 100,
    };
    let unheard = End {
        status: Status::WriteFault,
        err: "",
        room: 0,
        ..refused("", 2)
    };
    for (document, line, end) in [
        ("", "validate", usage),
        ("", "validate d.xml --keys k.txt --keys k.txt", usage),
        ("", "canon d.xml --method c14n10 --prefixes a", usage),
        ("", "selftest 0", usage),
        ("", "validate d.xml --keys k.txt", unheard),
        ("", "template d.xml", refused("refused NotWellFormed\n", 1)),
        ("", "template n.xml", refused("refused NoDocument\n", 1)),
        (
            "",
            "sign d.xml --keys k.txt",
            refused("refused NotWellFormed\n", 2),
        ),
        (
            "",
            "sign d.xml --keys n.txt",
            refused("refused NoKeys\n", 2),
        ),
        (
            "",
            "validate d.xml --keys k.txt --manifests",
            refused("refused NotWellFormed\n", 2),
        ),
        (
            DOCUMENT,
            "validate d.xml --keys k.txt --key k2",
            refused("refused UnknownKey\n", 2),
        ),
        (
            DOCUMENT,
            "validate d.xml --keys k.txt --index 2",
            refused("refused NoSignature\n", 2),
        ),
        (
            "",
            "validate d.xml --keys k.txt --catalog n.txt",
            refused("refused NoCatalog\n", 3),
        ),
        (
            "",
            "validate d.xml --keys k.txt --catalog c.txt",
            refused("refused CatalogBadLine 1\n", 3),
        ),
        (
            "<r><a Id=\"x\"/><b Id=\"x\"/></r>",
            "canon d.xml --method exc --id x",
            refused("refused AmbiguousId 3 6\n", 1),
        ),
        (
            "<r><a Id=\"x\"/><b Id=\"x\"/></r>",
            "canon d.xml --method exc --id y",
            refused("refused NoSuchId\n", 1),
        ),
    ] {
        expect(&rt, alloc, document, line, &mut Vec::new(alloc), end)?;
    }
    Ok(())
}

#[test]
fn forms(rt: HostRuntime) -> Result<(), Fail> {
    let alloc = rt.alloc();
    let inherited =
        "<r xml:lang=\"en\" xml:id=\"i\"><m xml:space=\"preserve\"><e Id=\"k\">t</e></m></r>";
    let prefixed = "<p:r xmlns=\"urn:d\" xmlns:p=\"urn:p\"><e xmlns=\"\"/></p:r>";
    let outer = "<?p q?><!--c--><a/><?z?>";
    for (document, line, out) in [
        (
            inherited,
            "canon d.xml --method c14n10 --id k",
            "<e Id=\"k\" xml:id=\"i\" xml:lang=\"en\" xml:space=\"preserve\">t</e>",
        ),
        (
            inherited,
            "canon d.xml --method exc --id k",
            "<e Id=\"k\">t</e>",
        ),
        (
            prefixed,
            "canon d.xml --method c14n10",
            "<p:r xmlns=\"urn:d\" xmlns:p=\"urn:p\"><e xmlns=\"\"></e></p:r>",
        ),
        (
            prefixed,
            "canon d.xml --method exc",
            "<p:r xmlns:p=\"urn:p\"><e></e></p:r>",
        ),
        (
            prefixed,
            "canon d.xml --method exc --prefixes #default",
            "<p:r xmlns=\"urn:d\" xmlns:p=\"urn:p\"><e xmlns=\"\"></e></p:r>",
        ),
        (
            "<a t='x&#9;\"&lt;&gt;&amp;'>&#13;&gt;</a>",
            "canon d.xml --method c14n10",
            "<a t=\"x&#x9;&quot;&lt;>&amp;\">&#xD;&gt;</a>",
        ),
        (
            outer,
            "canon d.xml --method c14n10",
            "<?p q?>\n<a></a>\n<?z?>",
        ),
        (
            outer,
            "canon d.xml --method exc-comments",
            "<?p q?>\n<!--c-->\n<a></a>\n<?z?>",
        ),
    ] {
        let end = printed(Status::Done, out);
        expect(&rt, alloc, document, line, &mut Vec::new(alloc), end)?;
    }
    Ok(())
}

#[test]
fn expressions(rt: HostRuntime) -> Result<(), Fail> {
    let alloc = rt.alloc();
    let inner = "<p:a xmlns:p=\"urn:p\"><p:b><p:c/></p:b></p:a>";
    for (document, line, end) in [
        (
            "<r a=\"1\"><s b=\"2\"/></r>",
            "canon d.xml --method c14n10 --xpath name()='b'",
            printed(Status::Done, " b=\"2\""),
        ),
        (
            inner,
            "canon d.xml --method exc --xpath not(name()='p'and'b'=local-name(..))",
            printed(
                Status::Done,
                "<p:a xmlns:p=\"urn:p\"><p:b><p:c xmlns:p=\"urn:p\"></p:c></p:b></p:a>",
            ),
        ),
        (
            inner,
            "canon d.xml --method c14n10 --xpath self::p:b",
            printed(Status::Done, "<p:b></p:b>"),
        ),
        (
            inner,
            "canon d.xml --method c14n10 --xpath self::p:c[ancestor::*[1]/self::p:b]",
            printed(Status::Done, "<p:c></p:c>"),
        ),
        (
            inner,
            "canon d.xml --method exc --xpath false()",
            printed(Status::Done, ""),
        ),
        (
            inner,
            "canon d.xml --method c14n10 --xpath q:b",
            refused("refused UnboundPrefix\n", 1),
        ),
        (
            inner,
            "canon d.xml --method c14n10 --xpath 1=here()",
            refused("refused HereElsewhere\n", 1),
        ),
    ] {
        expect(&rt, alloc, document, line, &mut Vec::new(alloc), end)?;
    }
    Ok(())
}

#[test]
fn values(rt: HostRuntime) -> Result<(), Fail> {
    let alloc = rt.alloc();
    let document = "<r><a>1</a><a>x</a></r>";
    for expression in [
        "//a<2",
        "sum(//a)!=sum(//a)",
        "count(//a[position()=last()]|//a[2])=1",
        "substring(\"12345\",2,3)=\"234\"",
        "(-5)mod(2)=0-1",
        "1mod(0)!=1mod(0)",
    ] {
        let line = format!(in alloc; "canon d.xml --method c14n10 --xpath {}", expression)?;
        let end = printed(Status::Done, document);
        expect(
            &rt,
            alloc,
            document,
            line.as_str(),
            &mut Vec::new(alloc),
            end,
        )?;
    }
    Ok(())
}

/// A keeper that fails at that call.
pub(crate) fn keeper(alloc: Global, failing: Option<u64>) -> Result<MemKeeper, NoMemory> {
    let mut keeper = MemKeeper::new(alloc);
    if let Some(call) = failing {
        keeper.fail_call(call)?;
    }
    Ok(keeper)
}

/// Asserts that a keeper has just these views, in order.
fn expect_views(rt: &impl Abort, keeper: &Box<dyn ViewKeeper>, views: &[&str]) {
    let names = ["v/view-001", "v/view-002"];
    for (k, view) in views.iter().enumerate() {
        let Some((name, octets)) = keeper.entry(k) else {
            panic!(rt);
        };
        assert!(rt; k < names.len());
        assert!(rt; name == names[k]);
        assert!(rt; octets == view.as_bytes());
    }
    assert!(rt; keeper.entry(views.len()).is_none());
}

/// Asserts that each keeper has just the views that stand beside it.
pub(crate) fn expect_each(rt: &impl Abort, keepers: &[Box<dyn ViewKeeper>], wanted: &[&[&str]]) {
    for (k, keeper) in keepers.iter().enumerate() {
        let Some(views) = wanted.get(k) else {
            panic!(rt);
        };
        expect_views(rt, keeper, views);
    }
    assert_eq!(rt; keepers.len(), wanted.len());
}

const LINE: &str = "validate d.xml --keys k.txt --views v";

pub(crate) const ONE: &str =
    "<Object xmlns=\"http://www.w3.org/2000/09/xmldsig#\" Id=\"obj\">Hello</Object>";

const OTHER: &str = "<Object xmlns=\"http://www.w3.org/2000/09/xmldsig#\" Id=\"two\">Two</Object>";

/// Two References, of which the first has this digest.
fn two_references(alloc: Global, digest: &str, value: &str) -> Result<String, NoMemory> {
    let one = reference(alloc, "#obj", DIGEST, digest)?;
    let two = reference(alloc, "#two", DIGEST, TWO)?;
    let references = joined(alloc, &[&one, &two])?;
    let objects = joined(alloc, &[OBJECT, "<Object Id=\"two\">Two</Object>"])?;
    signature(alloc, C10, SHA256, "", &references, value, &objects)
}

#[test]
fn two_keepers(rt: HostRuntime) -> Result<(), Fail> {
    let alloc = rt.alloc();
    let right = two_references(alloc, HELLO, "6DRoVyEJ5ashFnKl0ZsxsyQmqK1UXe9jDduV2+mR768=")?;
    let wrong = two_references(alloc, TWO, "E1B66OlwoXI+Jqzf0zAXrRKMu7tmVtx/jexcml9SlM8=")?;
    let views = [ONE, OTHER];
    let both: &[&str] = &views;
    let one: &[&str] = &views[..1];
    let none: &[&str] = &views[..0];
    for (document, failing, status, out, err, first, second) in [
        (
            &right,
            None,
            Status::Valid,
            "valid\nreference 1 octets 74\nreference 2 octets 72\n",
            "",
            both,
            both,
        ),
        (
            &right,
            Some(1),
            Status::ViewFault,
            "",
            "fault view 2 2\n",
            both,
            one,
        ),
        (
            &wrong,
            None,
            Status::Invalid,
            "invalid digests 1\n",
            "",
            none,
            none,
        ),
    ] {
        let mut keepers: Vec<Box<dyn ViewKeeper>> = Vec::new(alloc);
        keepers.push(Box::new(alloc, keeper(alloc, None)?)?)?;
        keepers.push(Box::new(alloc, keeper(alloc, failing)?)?)?;
        let end = End {
            status,
            out,
            err,
            asked: 2,
            room: 100,
        };
        expect(&rt, alloc, document, LINE, &mut keepers, end)?;
        expect_each(&rt, keepers.as_slice(), &[first, second]);
    }
    Ok(())
}

/// A Signature whose Reference is to the whole document without it.
fn enveloped(alloc: Global, digest: &str, value: &str) -> Result<String, NoMemory> {
    let reference = joined(
        alloc,
        &[
            "<Reference URI=\"\"><Transforms><Transform Algorithm=\"http://www.w3.org/2000/09/xmldsig#enveloped-signature\"></Transform></Transforms><DigestMethod Algorithm=\"",
            DIGEST,
            "\"></DigestMethod><DigestValue>",
            digest,
            "</DigestValue></Reference>",
        ],
    )?;
    signature(alloc, C10, SHA256, "", &reference, value, "")
}

#[test]
fn views(rt: HostRuntime) -> Result<(), Fail> {
    let alloc = rt.alloc();
    let empty = reference(
        alloc,
        "e.bin",
        DIGEST,
        "47DEQpj8HBSa+/TImW+5JCeuQeRkm5NMpJWZG3hSuFU=",
    )?;
    let value = "ow6zuOXIgtMowVHKiSCKNs4EArbGsLgHRUTeZMeuxMc=";
    let detached = signature(alloc, C10, SHA256, "", &empty, value, "")?;
    let first = enveloped(
        alloc,
        "AA==",
        "aHV1hauAxz87r9rGj0hd8fbAb78oc3PvSlmv0SENC7Q=",
    )?;
    let second = enveloped(
        alloc,
        "eDNFZZYgHbx3yxACL6OasJ3uNZHC6ORRJNx8PBnXg+0=",
        "dEKL9+1c/O9HQ5BMUOt5C6bz9w3IojX6x7erJQVmSmU=",
    )?;
    let both = joined(alloc, &["<doc>", &first, &second, "</doc>"])?;
    let without = joined(alloc, &["<doc>", &first, "</doc>"])?;
    for (document, index, out, asked, view) in [
        (DOCUMENT, "1", "valid\nreference 1 octets 74\n", 2, ONE),
        (&detached, "1", "valid\nreference 1 octets 0\n", 3, ""),
        (&both, "2", "valid\nreference 1 octets 642\n", 2, &without),
    ] {
        let line = joined(alloc, &[LINE, " --index ", index])?;
        let mut keepers: Vec<Box<dyn ViewKeeper>> = Vec::new(alloc);
        keepers.push(Box::new(alloc, keeper(alloc, None)?)?)?;
        let end = End {
            asked,
            ..printed(Status::Valid, out)
        };
        expect(&rt, alloc, document, &line, &mut keepers, end)?;
        let only: &[&str] = &[view];
        expect_each(&rt, keepers.as_slice(), &[only]);
    }
    Ok(())
}

const TEMPLATE: &str =
    "<ds:Signature xmlns:ds=\"http://www.w3.org/2000/09/xmldsig#\"><ds:SignedInfo><ds:CanonicalizationMethod Algorithm=\"http://www.w3.org/2001/10/xml-exc-c14n#\"/><ds:SignatureMethod Algorithm=\"http://www.w3.org/2001/04/xmldsig-more#hmac-sha256\"/><ds:Reference URI=\"\"><ds:Transforms><ds:Transform Algorithm=\"http://www.w3.org/2000/09/xmldsig#enveloped-signature\"/><ds:Transform Algorithm=\"http://www.w3.org/2001/10/xml-exc-c14n#\"/></ds:Transforms><ds:DigestMethod Algorithm=\"http://www.w3.org/2001/04/xmlenc#sha256\"/><ds:DigestValue/></ds:Reference></ds:SignedInfo><ds:SignatureValue/></ds:Signature>";

#[test]
fn templates(rt: HostRuntime) -> Result<(), Fail> {
    let alloc = rt.alloc();
    let named =
        "<ds:Signature xmlns:ds=\"http://www.w3.org/2000/09/xmldsig#\"><ds:SignedInfo><ds:CanonicalizationMethod Algorithm=\"http://www.w3.org/2001/10/xml-exc-c14n#\"/><ds:SignatureMethod Algorithm=\"http://www.w3.org/2000/09/xmldsig#hmac-sha1\"/><ds:Reference URI=\"\"><ds:Transforms><ds:Transform Algorithm=\"http://www.w3.org/2000/09/xmldsig#enveloped-signature\"/><ds:Transform Algorithm=\"http://www.w3.org/2001/10/xml-exc-c14n#\"/></ds:Transforms><ds:DigestMethod Algorithm=\"http://www.w3.org/2000/09/xmldsig#sha1\"/><ds:DigestValue/></ds:Reference></ds:SignedInfo><ds:SignatureValue/><ds:KeyInfo><ds:KeyName>a&amp;b</ds:KeyName></ds:KeyInfo></ds:Signature>";
    for (document, line, start, template, end) in [
        (
            "<doc>hi</doc>",
            "template d.xml",
            "<doc>hi",
            TEMPLATE,
            "</doc>",
        ),
        ("<a/>\n", "template d.xml", "<a>", TEMPLATE, "</a>\n"),
        (
            "<a b='c' >t</a >",
            "template d.xml --method hmac-sha1 --digest sha1 --key a&b",
            "<a b='c' >t",
            named,
            "</a >",
        ),
    ] {
        let out = joined(alloc, &[start, template, end])?;
        let end = printed(Status::Done, &out);
        expect(&rt, alloc, document, line, &mut Vec::new(alloc), end)?;
    }
    Ok(())
}

/// A Reference without a digest.
fn template_reference(alloc: Global, uri: &str) -> Result<String, NoMemory> {
    reference(alloc, uri, DIGEST, "")
}

#[test]
fn signing(rt: HostRuntime) -> Result<(), Fail> {
    let alloc = rt.alloc();
    let line = "sign d.xml --keys k.txt";
    let empty = template_reference(alloc, "#obj")?;
    let template = signature(alloc, C10, SHA256, "", &empty, "", OBJECT)?;
    let commented = reference(alloc, "#obj", DIGEST, "<!--c-->")?;
    let commented = signature(alloc, C10, SHA256, "", &commented, "", OBJECT)?;
    let absent = template_reference(alloc, "n.bin")?;
    let absent = signature(alloc, C10, SHA256, "", &absent, "", OBJECT)?;
    let whole = template_reference(alloc, "")?;
    let whole = signature(alloc, C10, SHA256, "", &whole, "", "")?;
    let short = signature(
        alloc,
        C10,
        SHA256,
        "<HMACOutputLength>64</HMACOutputLength>",
        &empty,
        "",
        OBJECT,
    )?;
    let done = End {
        asked: 2,
        ..printed(Status::Done, DOCUMENT)
    };
    for (document, line, end) in [
        (template.as_str(), line, done),
        (DOCUMENT, line, done),
        (
            template.as_str(),
            "sign d.xml --keys k.txt --key k2",
            refused("refused UnknownKey\n", 2),
        ),
        (
            template.as_str(),
            "sign d.xml --keys k.txt --index 2",
            refused("refused NoSignature\n", 2),
        ),
        (
            template.as_str(),
            "sign d.xml --keys k.txt --catalog c.txt",
            refused("refused CatalogBadLine 1\n", 3),
        ),
        (commented.as_str(), line, refused("refused NotText 23\n", 2)),
        (
            absent.as_str(),
            line,
            refused("refused reference 1 Absent\n", 3),
        ),
        (whole.as_str(), line, refused("refused CoversItself 1\n", 2)),
        (
            short.as_str(),
            line,
            refused("refused ShortTruncation 64\n", 2),
        ),
    ] {
        expect(&rt, alloc, document, line, &mut Vec::new(alloc), end)?;
    }
    Ok(())
}

/// Runs a line over a document, and answers what stands on out.
fn made(rt: &impl Abort, alloc: Global, document: &str, line: &str) -> Result<String, NoMemory> {
    let mut folder = folder_of(alloc, document)?;
    let words = words_of(alloc, line)?;
    let mut keepers: Vec<Box<dyn ViewKeeper>> = Vec::new(alloc);
    let mut out = MemSink::with_room(alloc, 2000)?;
    let mut err = MemSink::with_room(alloc, 100)?;
    let status = run(alloc, &words, &mut folder, &mut keepers, &mut out, &mut err);
    assert_eq!(rt; status, Status::Done, "{}", line);
    let Ok(text) = str::from_utf8(out.bytes()) else {
        panic!(rt);
    };
    Ok(String::from_str(alloc, text)?)
}

#[test]
fn what_is_signed_is_valid(rt: HostRuntime) -> Result<(), Fail> {
    let alloc = rt.alloc();
    for (document, line) in [
        ("<doc>hi</doc>", "valid\nreference 1 octets 13\n"),
        (
            "<?xml version=\"1.0\" encoding=\"UTF-8\"?>\n<Order xmlns=\"urn:example:order\">\n  <Item sku=\"7\">Tea</Item>\n</Order>\n",
            "valid\nreference 1 octets 69\n",
        ),
    ] {
        let template = made(&rt, alloc, document, "template d.xml --key k1")?;
        let signed = made(&rt, alloc, &template, "sign d.xml --keys k.txt")?;
        let again = made(&rt, alloc, &signed, "sign d.xml --keys k.txt")?;
        assert!(rt; again.as_str() == signed.as_str());
        let end = End {
            asked: 2,
            ..printed(Status::Valid, line)
        };
        let validate = "validate d.xml --keys k.txt";
        expect(&rt, alloc, &signed, validate, &mut Vec::new(alloc), end)?;
    }
    Ok(())
}

#[test]
fn self_tests(rt: HostRuntime) -> Result<(), Fail> {
    let alloc = rt.alloc();
    let out = "selftest 1 references 1 octets 27 bytes 535 valid\n";
    let end = End {
        asked: 0,
        ..printed(Status::Done, out)
    };
    expect(&rt, alloc, "", "selftest 1", &mut Vec::new(alloc), end)?;
    Ok(())
}
