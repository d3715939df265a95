//! Whole runs of which one call fails: each call that a run makes, in turn.

use crate::ending::Status;
use crate::signed_tests::{C10, DIGEST, HELLO, SHA256, joined, reference, signature};
use crate::tests::{DOCUMENT, KEYS};
use crate::top::run;
use sig_base::NoMemory;
use sig_outside::{BoundKeeper, MemFolder, MemKeeper, MemSink, ViewKeeper};
use signed_views::{drop_failed, fault_counts};
use std::alloc::Global;
use std::process::Abort;
use std::test::Fail;

/// The object whose call fails.
#[derive(Clone, Copy, Debug, PartialEq, Eq)]
enum Object {
    Folder,
    Out,
    Err,
}

/// What is run: a document, the room on out, and the call that fails, counted from 0.
#[derive(Clone, Copy)]
struct Given<'g> {
    document: &'g [u8],
    room: usize,
    object: Object,
    call: u64,
}

/// How it ends: the status, what stands on out and on err, and the views that each keeper has.
#[derive(Clone, Copy)]
struct End<'e> {
    status: Status,
    out: &'e str,
    err: &'e str,
    views: &'e [&'e str],
}

/// A run of a document of which that call fails.
fn failing(document: &str, object: Object, call: u64) -> Given<'_> {
    Given {
        document: document.as_bytes(),
        room: 100,
        object,
        call,
    }
}

/// An end with nothing on out, and no view in a keeper.
fn stopped(status: Status, err: &str) -> End<'_> {
    End {
        status,
        out: "",
        err,
        views: &[],
    }
}

/// The document, the key file, and the file of a Reference.
fn folder_of(alloc: Global, given: Given<'_>) -> Result<MemFolder, NoMemory> {
    let mut folder = MemFolder::new(alloc);
    folder.add("d.xml", given.document)?;
    folder.add("k.txt", KEYS.as_bytes())?;
    folder.add("a.txt", FILE.as_bytes())?;
    if given.object == Object::Folder {
        folder.fail_call(given.call)?;
    }
    Ok(folder)
}

/// A sink, of which a call fails where it is that object.
fn sink_of(
    alloc: Global,
    given: Given<'_>,
    object: Object,
    room: usize,
) -> Result<MemSink, NoMemory> {
    let mut sink = MemSink::with_room(alloc, room)?;
    if given.object == object {
        sink.fail_call(given.call)?;
    }
    Ok(sink)
}

/// Asserts that a keeper has just these views.
fn expect_views<K: ViewKeeper>(rt: &impl Abort, keeper: &K, views: &[&str]) {
    let names = ["v/view-001", "v/view-002"];
    for (place, view) in views.iter().enumerate() {
        let Some((name, octets)) = keeper.entry(place) else {
            panic!(rt);
        };
        assert!(rt; place < names.len());
        assert!(rt; name == names[place] && octets == view.as_bytes());
    }
    assert!(rt; keeper.entry(views.len()).is_none());
}

/// Validates, hands the views on to these keepers, and asserts how that ends.
fn expect<K: ViewKeeper>(
    rt: &impl Abort,
    alloc: Global,
    given: Given<'_>,
    keepers: &mut Vec<K>,
    end: End<'_>,
) -> Result<(), NoMemory> {
    let mut words = Vec::new(alloc);
    for word in ["validate", "d.xml", "--keys", "k.txt", "--views", "v"] {
        words.push(String::from_str(alloc, word)?)?;
    }
    let mut folder = folder_of(alloc, given)?;
    let mut out = sink_of(alloc, given, Object::Out, given.room)?;
    let mut err = sink_of(alloc, given, Object::Err, 100)?;
    let status = run(alloc, &words, &mut folder, keepers, &mut out, &mut err);
    assert_eq!(rt; status, end.status, "{:?} {}", given.object, given.call);
    assert!(rt;
        out.bytes() == end.out.as_bytes(),
        "{:?} {}",
        given.object,
        given.call
    );
    assert!(rt;
        err.bytes() == end.err.as_bytes(),
        "{:?} {}",
        given.object,
        given.call
    );
    for keeper in keepers {
        expect_views(rt, keeper, end.views);
    }
    Ok(())
}

/// The same with one keeper.
fn expect_of_one(
    rt: &impl Abort,
    alloc: Global,
    given: Given<'_>,
    end: End<'_>,
) -> Result<(), NoMemory> {
    let mut keepers: Vec<MemKeeper> = Vec::new(alloc);
    keepers.push(MemKeeper::new(alloc))?;
    expect(rt, alloc, given, &mut keepers, end)
}

const FILE: &str = "a file\n";

const FILE_DIGEST: &str = "2mnyhvA8DSExs/la/nyNMbT2XL9cpJoSxB2L8C02ajQ=";

const HELLO_VIEW: &str =
    "<Object xmlns=\"http://www.w3.org/2000/09/xmldsig#\" Id=\"obj\">Hello</Object>";

/// A document whose one Reference is to the file.
fn of_the_file(alloc: Global) -> Result<String, NoMemory> {
    let file = reference(alloc, "a.txt", DIGEST, FILE_DIGEST)?;
    let value = "qXtvbqvb3k4AeynVjpN8HO0F77fvpCC+YvjHCY925+M=";
    signature(alloc, C10, SHA256, "", &file, value, "")
}

#[test]
fn each_call_of_the_folder(rt: HostRuntime) -> Result<(), Fail> {
    let alloc = rt.alloc();
    let document = of_the_file(alloc)?;
    for call in 0..3 {
        let end = stopped(Status::ReadFault, "fault read\n");
        expect_of_one(&rt, alloc, failing(&document, Object::Folder, call), end)?;
    }
    let no_further_call = End {
        status: Status::Valid,
        out: "valid\nreference 1 octets 7\n",
        err: "",
        views: &[FILE],
    };
    expect_of_one(
        &rt,
        alloc,
        failing(&document, Object::Folder, 3),
        no_further_call,
    )?;
    Ok(())
}

/// The document with the content of its Object changed, so that the digest is wrong.
fn with_a_wrong_digest(alloc: Global) -> Result<String, NoMemory> {
    let Some((before, behind)) = DOCUMENT.split_once("Hello") else {
        return Ok(String::new(alloc));
    };
    joined(alloc, &[before, "Hallo", behind])
}

#[test]
fn each_call_of_a_sink(rt: HostRuntime) -> Result<(), Fail> {
    let alloc = rt.alloc();
    let wrong = with_a_wrong_digest(alloc)?;
    let valid = End {
        status: Status::Valid,
        out: "valid\nreference 1 octets 74\n",
        err: "",
        views: &[HELLO_VIEW],
    };
    let unsaid = End {
        status: Status::WriteFault,
        out: "",
        err: "fault write\n",
        ..valid
    };
    let invalid = End {
        out: "invalid digests 1\n",
        ..stopped(Status::Invalid, "")
    };
    let short = Given {
        room: 3,
        ..failing(&wrong, Object::Out, 1)
    };
    for (given, end) in [
        (failing(DOCUMENT, Object::Out, 0), unsaid),
        (failing(DOCUMENT, Object::Out, 1), valid),
        (failing(DOCUMENT, Object::Err, 0), valid),
        (
            failing(&wrong, Object::Out, 0),
            stopped(Status::WriteFault, "fault write\n"),
        ),
        (failing(&wrong, Object::Out, 1), invalid),
        (failing(&wrong, Object::Err, 0), invalid),
        (short, stopped(Status::WriteFault, "fault write\n")),
        (failing("", Object::Err, 0), stopped(Status::WriteFault, "")),
        (
            failing("", Object::Err, 1),
            stopped(Status::Refused, "refused NotWellFormed\n"),
        ),
        (
            failing("", Object::Out, 0),
            stopped(Status::Refused, "refused NotWellFormed\n"),
        ),
    ] {
        expect_of_one(&rt, alloc, given, end)?;
    }
    Ok(())
}

/// A document with two views of 74 octets.
fn of_two_views(alloc: Global) -> Result<String, NoMemory> {
    let world = "E5IShNVJBMk+VWJtYB7kw+EdNAt8D0kpQpMj4c9gGpA=";
    let one = reference(alloc, "#obj", DIGEST, HELLO)?;
    let two = reference(alloc, "#two", DIGEST, world)?;
    let references = joined(alloc, &[&one, &two])?;
    let value = "VITzEGQm10vzfRr7+33dQz42fVRRw9+yXYISPn/0iaI=";
    let objects = "<Object Id=\"obj\">Hello</Object><Object Id=\"two\">World</Object>";
    signature(alloc, C10, SHA256, "", &references, value, objects)
}

#[test]
fn a_keeper_at_its_bound(rt: HostRuntime) -> Result<(), Fail> {
    let alloc = rt.alloc();
    let document = of_two_views(alloc)?;
    let mut keepers: Vec<Box<dyn ViewKeeper>> = Vec::new(alloc);
    keepers.push(Box::new(alloc, BoundKeeper::new(alloc, 80))?)?;
    keepers.push(Box::new(alloc, MemKeeper::new(alloc))?)?;
    let before = fault_counts(alloc, &keepers)?;
    assert!(rt; before.as_slice() == [0, 0].as_slice());
    let end = End {
        views: &[HELLO_VIEW],
        ..stopped(Status::ViewFault, "fault view 2 1\n")
    };
    expect(
        &rt,
        alloc,
        failing(&document, Object::Out, 9),
        &mut keepers,
        end,
    )?;
    assert_eq!(rt; keepers.len(), before.len());
    assert_eq!(rt; drop_failed(&mut keepers, &before), 1);
    assert_eq!(rt; keepers.len(), 1);
    assert_eq!(rt; keepers[0].faults_now(), 0);
    expect_views(&rt, &keepers[0], end.views);
    Ok(())
}

/// `<doc>hi</doc>`, signed.
const SIGNED: &str =
    "<doc>hi<ds:Signature xmlns:ds=\"http://www.w3.org/2000/09/xmldsig#\"><ds:SignedInfo><ds:CanonicalizationMethod Algorithm=\"http://www.w3.org/2001/10/xml-exc-c14n#\"/><ds:SignatureMethod Algorithm=\"http://www.w3.org/2001/04/xmldsig-more#hmac-sha256\"/><ds:Reference URI=\"\"><ds:Transforms><ds:Transform Algorithm=\"http://www.w3.org/2000/09/xmldsig#enveloped-signature\"/><ds:Transform Algorithm=\"http://www.w3.org/2001/10/xml-exc-c14n#\"/></ds:Transforms><ds:DigestMethod Algorithm=\"http://www.w3.org/2001/04/xmlenc#sha256\"/><ds:DigestValue>VpZ3Qkb/g20n7MOc0z9ESj++OGYXP1Nl3pQww3PTjCE=</ds:DigestValue></ds:Reference></ds:SignedInfo><ds:SignatureValue>fzooD6Ew9HfOafeNlFhJJHZGB6O7pMdXoVPy5eP10Zk=</ds:SignatureValue><ds:KeyInfo><ds:KeyName>k1</ds:KeyName></ds:KeyInfo></ds:Signature></doc>";

#[test]
fn each_proper_prefix(rt: HostRuntime) -> Result<(), Fail> {
    let alloc = rt.alloc();
    let whole = failing(SIGNED, Object::Out, 9);
    for length in 0..whole.document.len() {
        let prefix = Given {
            document: &whole.document[..length],
            ..whole
        };
        let end = stopped(Status::Refused, "refused NotWellFormed\n");
        expect_of_one(&rt, alloc, prefix, end)?;
    }
    let valid = End {
        status: Status::Valid,
        out: "valid\nreference 1 octets 13\n",
        err: "",
        views: &["<doc>hi</doc>"],
    };
    expect_of_one(&rt, alloc, whole, valid)?;
    Ok(())
}
