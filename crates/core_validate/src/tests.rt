//! Canonical forms of sets of rows of documents that are read, and validations of signatures that other implementations made.

use crate::{Report, ValidateRefusal, validate};
use bumpalo::Bump;
use c14n_methods::canon;
use digests_hmac::KeyTable;
use dsig_fields::Question;
use node_sets::NodeSet;
use sig_base::{CanonMethod, Members, NoMemory, PrefixList, Text, VecSink, Views};
use sig_outside::MemFolder;
use std::alloc::Global;
use std::process::Abort;
use std::test::Fail;
use uri_refs::{Base, Catalog, Place};
use xml_doc::{Doc, IdAnswer};
use xml_read::{ReadRefusal, read_document};

/// Which rows of a document are in the set.
#[derive(Clone, Copy)]
enum Rows {
    /// All.
    All,
    /// Those of the subtree of the element with the ID `k`.
    Element,
    /// Those of these ranges: from the first number to before the second.
    Ranges(&'static [(u32, u32)]),
}

fn is_within(ranges: &[(u32, u32)], row: u32) -> bool {
    for range in ranges {
        if range.0 <= row && row < range.1 {
            return true;
        }
    }
    false
}

/// Puts a row of the set's document into the set.
fn insert(set: &mut NodeSet<'_>, row: u32) {
    if row < set.lend().rows() {
        set.insert(row);
    }
}

/// The rows of these ranges, put in one by one.
fn set_of_ranges<'d>(
    alloc: Global,
    doc: &'d Doc<'d>,
    ranges: &[(u32, u32)],
) -> Result<NodeSet<'d>, NoMemory> {
    let mut set = NodeSet::empty(alloc, doc)?;
    for row in 0..doc.rows() {
        if is_within(ranges, row) {
            insert(&mut set, row);
        }
    }
    Ok(set)
}

/// The set of these rows.
fn set_of<'d>(alloc: Global, doc: &'d Doc<'d>, rows: Rows) -> Result<NodeSet<'d>, NoMemory> {
    match rows {
        Rows::All => NodeSet::all(alloc, doc),
        Rows::Element => match doc.element_by_id("k") {
            IdAnswer::One(element) if element < doc.rows() => NodeSet::subtree(alloc, doc, element),
            _ => NodeSet::empty(alloc, doc),
        },
        Rows::Ranges(ranges) => set_of_ranges(alloc, doc, ranges),
    }
}

/// A PrefixList of one name, or none where it is empty.
fn listed(alloc: Global, name: &str) -> Result<PrefixList, NoMemory> {
    let mut prefixes = Members::new(alloc);
    if !name.is_empty() {
        prefixes.push(Text::from_str(alloc, name)?)?;
    }
    Ok(prefixes)
}

/// Asserts the canonical form of these rows of a document.
fn expect_form(
    rt: &impl Abort,
    alloc: Global,
    doc: &Doc<'_>,
    method: CanonMethod,
    prefix: &str,
    rows: Rows,
    form: &str,
) -> Result<(), NoMemory> {
    let prefixes = listed(alloc, prefix)?;
    assert!(rt; prefixes.is_empty() || method.is_exclusive());
    let set = set_of(alloc, doc, rows)?;
    let mut sink = VecSink::new(alloc);
    assert!(rt;
        canon(alloc, method, &prefixes, set.lend(), &mut sink).is_ok(),
        "{}",
        form
    );
    assert!(rt; sink.finish().bytes() == form.as_bytes(), "{}", form);
    Ok(())
}

/// Reads the document, and asserts the canonical form of these rows of it.
fn expect(
    rt: &impl Abort,
    alloc: Global,
    text: &str,
    method: CanonMethod,
    prefix: &str,
    rows: Rows,
    form: &str,
) -> Result<(), NoMemory> {
    let bump = Bump::new(alloc);
    match read_document(alloc, &bump, text.as_bytes()) {
        Ok(doc) => expect_form(rt, alloc, &doc, method, prefix, rows, form),
        Err(_) => panic!(rt),
    }
}

/// The whole of documents, most of them examples of Canonical XML 1.0 §3.
#[test]
fn documents(rt: HostRuntime) -> Result<(), Fail> {
    use CanonMethod::{C10, C10Comments, Exc, ExcComments};
    for (text, method, form) in [
        (
            "<p:r xmlns:p=\"urn:p\" xmlns=\"urn:d\"><!--c--><p:e/></p:r><!--d-->",
            ExcComments,
            "<p:r xmlns:p=\"urn:p\"><!--c--><p:e></p:e></p:r>\n<!--d-->",
        ),
        ("<?p q?><!--c--><a/><?z?>", C10, "<?p q?>\n<a></a>\n<?z?>"),
        (
            "<?p q?><!--c--><a/><?z?>",
            C10Comments,
            "<?p q?>\n<!--c-->\n<a></a>\n<?z?>",
        ),
        (
            "<a t='x&#9;\"&lt;&gt;&amp;'>&#13;&gt;</a>",
            C10,
            "<a t=\"x&#x9;&quot;&lt;>&amp;\">&#xD;&gt;</a>",
        ),
        (
            "<p:r xmlns=\"urn:d\" xmlns:p=\"urn:p\"><e xmlns=\"\"/></p:r>",
            C10,
            "<p:r xmlns=\"urn:d\" xmlns:p=\"urn:p\"><e xmlns=\"\"></e></p:r>",
        ),
        (
            "<p:r xmlns=\"urn:d\" xmlns:p=\"urn:p\"><e xmlns=\"\"/></p:r>",
            Exc,
            "<p:r xmlns:p=\"urn:p\"><e></e></p:r>",
        ),
    ] {
        expect(&rt, rt.alloc(), text, method, "", Rows::All, form)?;
    }
    Ok(())
}

#[test]
fn start_tags(rt: HostRuntime) -> Result<(), Fail> {
    use CanonMethod::C10;
    for (text, form) in [
        (
            "<d><e1   /><e2   ></e2><e3   name = \"elem3\"   id=\"elem3\"   /></d>",
            "<d><e1></e1><e2></e2><e3 id=\"elem3\" name=\"elem3\"></e3></d>",
        ),
        (
            "<e5 a:attr=\"out\" b:attr=\"sorted\" attr2=\"all\" attr=\"I'm\" xmlns:b=\"http://www.ietf.org\" xmlns:a=\"http://www.w3.org\" xmlns=\"http://example.org\"/>",
            "<e5 xmlns=\"http://example.org\" xmlns:a=\"http://www.w3.org\" xmlns:b=\"http://www.ietf.org\" attr=\"I'm\" attr2=\"all\" b:attr=\"sorted\" a:attr=\"out\"></e5>",
        ),
        (
            "<e6 xmlns=\"\" xmlns:a=\"http://www.w3.org\"><e7 xmlns=\"http://www.ietf.org\"><e8 xmlns=\"\" xmlns:a=\"http://www.w3.org\"><e9 xmlns=\"\" xmlns:a=\"http://www.ietf.org\"/></e8></e7></e6>",
            "<e6 xmlns:a=\"http://www.w3.org\"><e7 xmlns=\"http://www.ietf.org\"><e8 xmlns=\"\"><e9 xmlns:a=\"http://www.ietf.org\"></e9></e8></e7></e6>",
        ),
    ] {
        expect(&rt, rt.alloc(), text, C10, "", Rows::All, form)?;
    }
    Ok(())
}

/// Subtrees, among them those of Exclusive XML Canonicalization 1.0 §2.2.
#[test]
fn subtrees(rt: HostRuntime) -> Result<(), Fail> {
    use CanonMethod::{C10, Exc};
    let pdu =
        "<n2:pdu xmlns:n1=\"http://example.com\" xmlns:n2=\"http://foo.example\" xml:lang=\"fr\" xml:space=\"retain\"><n1:elem2 Id=\"k\" xmlns:n1=\"http://example.net\" xml:lang=\"en\"><n3:stuff xmlns:n3=\"ftp://example.org\"/></n1:elem2></n2:pdu>";
    let above =
        "<r xml:lang=\"en\" xml:id=\"i\"><m xml:space=\"preserve\"><e Id=\"k\">t</e></m></r>";
    for (text, method, prefix, form) in [
        (
            above,
            C10,
            "",
            "<e Id=\"k\" xml:id=\"i\" xml:lang=\"en\" xml:space=\"preserve\">t</e>",
        ),
        (above, Exc, "", "<e Id=\"k\">t</e>"),
        (
            pdu,
            C10,
            "",
            "<n1:elem2 xmlns:n1=\"http://example.net\" xmlns:n2=\"http://foo.example\" Id=\"k\" xml:lang=\"en\" xml:space=\"retain\"><n3:stuff xmlns:n3=\"ftp://example.org\"></n3:stuff></n1:elem2>",
        ),
        (
            pdu,
            Exc,
            "",
            "<n1:elem2 xmlns:n1=\"http://example.net\" Id=\"k\" xml:lang=\"en\"><n3:stuff xmlns:n3=\"ftp://example.org\"></n3:stuff></n1:elem2>",
        ),
        (
            pdu,
            Exc,
            "n2",
            "<n1:elem2 xmlns:n1=\"http://example.net\" xmlns:n2=\"http://foo.example\" Id=\"k\" xml:lang=\"en\"><n3:stuff xmlns:n3=\"ftp://example.org\"></n3:stuff></n1:elem2>",
        ),
        (
            "<p:r xmlns:p=\"urn:p\" xmlns=\"urn:d\"><p:e Id=\"k\"><f xmlns=\"\"/></p:e></p:r>",
            Exc,
            "#default",
            "<p:e xmlns=\"urn:d\" xmlns:p=\"urn:p\" Id=\"k\"><f xmlns=\"\"></f></p:e>",
        ),
    ] {
        expect(&rt, rt.alloc(), text, method, prefix, Rows::Element, form)?;
    }
    Ok(())
}

/// Sets that are no subtrees, among them the one of Canonical XML 1.0 §3.7.
#[test]
fn other_sets(rt: HostRuntime) -> Result<(), Fail> {
    use CanonMethod::{C10, Exc};
    let prefixed = "<p:a xmlns:p=\"urn:p\"><p:b><p:c/></p:b></p:a>";
    let apex =
        "<doc xmlns=\"http://www.ietf.org\" xmlns:w3c=\"http://www.w3.org\">\n   <e1>\n      <e2 xmlns=\"\" xml:space=\"preserve\">\n         <e3 id=\"E3\"/>\n      </e2>\n   </e1>\n</doc>";
    for (text, method, ranges, form) in [
        ("<r a=\"1\"><s b=\"2\"/></r>", C10, ATTRIBUTE, " b=\"2\""),
        (
            prefixed,
            Exc,
            WITHOUT_NAMESPACE,
            "<p:a xmlns:p=\"urn:p\"><p:b><p:c xmlns:p=\"urn:p\"></p:c></p:b></p:a>",
        ),
        (
            apex,
            C10,
            APEX,
            "<e1 xmlns=\"http://www.ietf.org\" xmlns:w3c=\"http://www.w3.org\"><e3 xmlns=\"\" id=\"E3\" xml:space=\"preserve\"></e3></e1>",
        ),
        (apex, Exc, NOTHING, ""),
    ] {
        expect(
            &rt,
            rt.alloc(),
            text,
            method,
            "",
            Rows::Ranges(ranges),
            form,
        )?;
    }
    Ok(())
}

/// The attribute of the inner element.
const ATTRIBUTE: &[(u32, u32)] = &[(6, 7)];

/// All but the namespace row of the middle element.
const WITHOUT_NAMESPACE: &[(u32, u32)] = &[(0, 5), (6, 10)];

/// The element `e1` with its namespace rows, and the subtree of `e3`.
const APEX: &[(u32, u32)] = &[(6, 10), (16, 20)];

/// No row.
const NOTHING: &[(u32, u32)] = &[];

/// The start of a signature with HMAC-SHA-256 by Canonical XML 1.0, up to its References.
const START: &str =
    "<Signature xmlns=\"http://www.w3.org/2000/09/xmldsig#\"><SignedInfo><CanonicalizationMethod Algorithm=\"http://www.w3.org/TR/2001/REC-xml-c14n-20010315\"></CanonicalizationMethod><SignatureMethod Algorithm=\"http://www.w3.org/2001/04/xmldsig-more#hmac-sha256\"></SignatureMethod>";

const SHA1: &str = "http://www.w3.org/2000/09/xmldsig#sha1";

const SHA256: &str = "http://www.w3.org/2001/04/xmlenc#sha256";

const C10_BASE64: &str =
    "<Transforms><Transform Algorithm=\"http://www.w3.org/TR/2001/REC-xml-c14n-20010315\"></Transform><Transform Algorithm=\"http://www.w3.org/2000/09/xmldsig#base64\"></Transform></Transforms>";

const ENVELOPED_C10: &str =
    "<Transforms><Transform Algorithm=\"http://www.w3.org/2000/09/xmldsig#enveloped-signature\"></Transform><Transform Algorithm=\"http://www.w3.org/TR/2001/REC-xml-c14n-20010315\"></Transform></Transforms>";

/// A Reference: its URI, its Transforms, its digest method and its DigestValue.
type Line = (&'static str, &'static str, &'static str, &'static str);

/// A signature with these References and this value.
fn signature(alloc: Global, lines: &[Line], value: &str) -> Result<String, NoMemory> {
    let mut text = String::from_str(alloc, START)?;
    for (uri, transforms, method, digest) in lines {
        let line = format!(in alloc;
            "<Reference URI=\"{}\">{}<DigestMethod Algorithm=\"{}\"></DigestMethod><DigestValue>{}</DigestValue></Reference>",
            uri, transforms, method, digest
        )?;
        text.push_str(line.as_str())?;
    }
    let end = format!(in alloc;
        "</SignedInfo><SignatureValue>{}</SignatureValue></Signature>",
        value
    )?;
    text.push_str(end.as_str())?;
    Ok(text)
}

fn place(rt: &impl Abort, alloc: Global) -> Place {
    let (Ok(base), Ok(catalog)) = (
        Base::read(alloc, "https://folder.invalid/"),
        Catalog::read(alloc, b""),
    ) else {
        panic!(rt);
    };
    Place { base, catalog }
}

fn folder(alloc: Global) -> Result<MemFolder, NoMemory> {
    let mut folder = MemFolder::new(alloc);
    folder.add("a.xml", b"<a></a >")?;
    folder.add("e.bin", b"")?;
    Ok(folder)
}

/// The lengths of views, and the octets of those that are kept.
fn told_views(alloc: Global, views: &Views) -> Result<String, NoMemory> {
    let mut text = String::from_str(alloc, "valid")?;
    for length in views.lengths.as_slice() {
        let word = format!(in alloc; " {}", length)?;
        text.push_str(word.as_str())?;
    }
    for k in 0..views.octets.len() {
        if let Some(octets) = views.octets.get(k) {
            let view = str::from_utf8(octets.bytes()).unwrap_or("no text");
            let word = format!(in alloc; " {}", view)?;
            text.push_str(word.as_str())?;
        }
    }
    Ok(text)
}

/// Validates the signature of that number under the only key of the table.
fn validated<'q>(
    alloc: Global,
    doc: &Doc<'_>,
    keys: &'q KeyTable,
    place: &'q Place,
    index: u32,
    keep_views: bool,
    folder: &mut MemFolder,
) -> Result<Report, ValidateRefusal> {
    let question = Question {
        index,
        key_name: None,
        keys,
        place,
        keep_views,
    };
    validate(alloc, doc, &question, folder)
}

/// What a validation comes to, and then the names that were asked for.
fn told(
    rt: &impl Abort,
    alloc: Global,
    document: &str,
    index: u32,
    keep_views: bool,
) -> Result<String, NoMemory> {
    let bump = Bump::new(alloc);
    let Ok(doc) = read_document(alloc, &bump, document.as_bytes()) else {
        panic!(rt);
    };
    let Ok(keys) = KeyTable::read(alloc, b"4a656665 k1\n") else {
        panic!(rt);
    };
    let place = place(rt, alloc);
    let mut folder = folder(alloc)?;
    let mut text = match validated(alloc, &doc, &keys, &place, index, keep_views, &mut folder) {
        Ok(Report::Valid(views)) => told_views(alloc, &views)?,
        Ok(Report::SignatureDiffers) => format!(in alloc; "signature differs")?,
        Ok(Report::ShortTruncation(bits)) => format!(in alloc; "truncation {}", bits)?,
        Ok(Report::DigestsDiffer(numbers)) => {
            format!(in alloc; "digests {:?}", numbers.as_slice())?
        }
        Err(refusal) => format!(in alloc; "{:?}", refusal)?,
    };
    for k in 0..4 {
        if let Some(name) = folder.asked_name(k) {
            let word = format!(in alloc; ", {}", name)?;
            text.push_str(word.as_str())?;
        }
    }
    Ok(text)
}

fn expect_told(
    rt: &impl Abort,
    alloc: Global,
    lines: &[Line],
    value: &str,
    words: &str,
) -> Result<(), NoMemory> {
    let document = signature(alloc, lines, value)?;
    let found = told(rt, alloc, document.as_str(), 1, true)?;
    assert_eq!(rt; found.as_str(), words);
    Ok(())
}

/// Two References with different digest methods, whose views are kept or not.
#[test]
fn views_that_are_kept(rt: HostRuntime) -> Result<(), Fail> {
    let alloc = rt.alloc();
    let signature = signature(
        alloc,
        &[
            (
                "#a",
                "",
                SHA256,
                "eQn3NZI8cEt4OHtJA3/+8a3GfwNc4OFazn4x1t5qmY0=",
            ),
            ("#b", "", SHA1, "dKJ4CUIKTzhzcDQawbsQnHsVfUk="),
        ],
        "G1blx+pY4jS4N3TvZ/FGl96c50s0PSRzMahmKENct5E=",
    )?;
    let document = format!(in alloc;
        "<r><a Id=\"a\">x</a><b Id=\"b\">y&amp;<c/></b>{}</r>",
        signature
    )?;
    let kept = told(&rt, alloc, document.as_str(), 1, true)?;
    assert_eq!(rt;
        kept.as_str(),
        "valid 15 27 <a Id=\"a\">x</a> <b Id=\"b\">y&amp;<c></c></b>"
    );
    assert_eq!(rt;
        told(&rt, alloc, document.as_str(), 1, false)?.as_str(),
        "valid 15 27"
    );
    assert_eq!(rt;
        told(&rt, alloc, document.as_str(), 2, false)?.as_str(),
        "NoSignature"
    );
    Ok(())
}

/// References to files: what is asked for, and when.
#[test]
fn references_to_files(rt: HostRuntime) -> Result<(), Fail> {
    let alloc = rt.alloc();
    let absent = (
        "a.txt",
        "",
        SHA256,
        "LXEWQrcmsEQBYnyp+6wy9chTD7GQPMTbAiWHF5IaSIE=",
    );
    let empty = (
        "e.bin",
        "",
        SHA256,
        "47DEQpj8HBSa+/TImW+5JCeuQeRkm5NMpJWZG3hSuFU=",
    );
    let steps = (
        "a.xml",
        C10_BASE64,
        SHA256,
        "LXEWQrcmsEQBYnyp+6wy9chTD7GQPMTbAiWHF5IaSIE=",
    );
    for (lines, value, words) in [
        (
            [absent].as_slice(),
            "Ag/mfxhSGktTc9x/YI5d3pF/oSgXkxkQ1KtWPwTAYwQ=",
            "signature differs",
        ),
        (
            &[absent],
            "Rg/mfxhSGktTc9x/YI5d3pF/oSgXkxkQ1KtWPwTAYwQ=",
            "Reference(1, Absent), a.txt",
        ),
        (
            &[empty],
            "ow6zuOXIgtMowVHKiSCKNs4EArbGsLgHRUTeZMeuxMc=",
            "valid 0 , e.bin",
        ),
        (
            &[steps],
            "W2cnD3IX/A7Hhl9mxtQ/ERJjnozFYtwt9MRLmFmcl9g=",
            "Reference(1, NotBase64(2)), a.xml",
        ),
        (
            &[empty, absent, steps],
            "FdYBCCs/WFbZO08pvp5R1ZOCNT8ojiL2SE67c6jrRbY=",
            "Reference(2, Absent), e.bin, a.txt",
        ),
    ] {
        expect_told(&rt, alloc, lines, value, words)?;
    }
    Ok(())
}

/// Two enveloped signatures, of which the second was made last.
#[test]
fn the_second_of_two_signatures(rt: HostRuntime) -> Result<(), Fail> {
    let alloc = rt.alloc();
    let first = signature(
        alloc,
        &[(
            "",
            ENVELOPED_C10,
            SHA256,
            "eZBhB3njJDU73FASp1KhA1GsTFiUjzfbeu6UbPWS+og=",
        )],
        "5bXG7H7Oz8CK1P3yEIz05Nv13lP+DX9yTx0EanE14xU=",
    )?;
    let second = signature(
        alloc,
        &[(
            "",
            ENVELOPED_C10,
            SHA256,
            "bPb/qwufWqD9vmGVOlYBRNPz73KO86FSA0gNjbCYB50=",
        )],
        "bNUeraseWyx1XUudA84wGDhZ1D84vHJwbucQ7h3ZAn0=",
    )?;
    let document = format!(in alloc; "<doc>{}-{}</doc>", first, second)?;
    let view = format!(in alloc; "valid 766 <doc>{}-</doc>", first)?;
    assert_eq!(rt;
        told(&rt, alloc, document.as_str(), 2, true)?.as_str(),
        view.as_str()
    );
    assert_eq!(rt;
        told(&rt, alloc, document.as_str(), 1, true)?.as_str(),
        "digests [1]"
    );
    Ok(())
}

/// One element with 100 declarations over so many elements, each of which has a row for each of them.
fn wide(alloc: Global, count: u32) -> Result<String, NoMemory> {
    let mut text = String::from_str(alloc, "<r")?;
    for k in 0..100 {
        let declaration = format!(in alloc; " xmlns:p{}=\"urn:p\"", k)?;
        text.push_str(declaration.as_str())?;
    }
    text.push_str(">")?;
    for _k in 0..count {
        text.push_str("<a/>")?;
    }
    text.push_str("</r>")?;
    Ok(text)
}

#[test]
fn too_many_rows(rt: HostRuntime) -> Result<(), Fail> {
    let alloc = rt.alloc();
    let bump = Bump::new(alloc);
    let text = wide(alloc, 9_803)?;
    assert!(rt; text.len() < 45_000);
    let refused = matches!(
        read_document(alloc, &bump, text.as_bytes()),
        Err(ReadRefusal::TooManyRows)
    );
    assert!(rt; refused);
    Ok(())
}
