//! Command lines that ask for Manifests, over files in memory. Another implementation made the digests and the signature values.

use crate::ending::Status;
use crate::line_tests::{End, ONE, expect_each, expect_over, folder_of, keeper, printed};
use crate::signed_tests::{C10, DIGEST, HELLO, OBJECT, SHA256, TWO, joined, reference, signature};
use sig_base::NoMemory;
use sig_outside::ViewKeeper;
use std::alloc::Global;
use std::process::Abort;
use std::test::Fail;

const BASE64: &str =
    "<Transforms><Transform Algorithm=\"http://www.w3.org/2000/09/xmldsig#base64\"></Transform></Transforms>";

/// The digest of no octets.
const EMPTY: &str = "47DEQpj8HBSa+/TImW+5JCeuQeRkm5NMpJWZG3hSuFU=";

const LINE: &str = "validate d.xml --keys k.txt --views v";

/// A Signature of one Reference, which by its Type refers to a Manifest, with a Manifest of these entries and another Object
/// behind it.
#[derive(Clone, Copy)]
struct Made<'m> {
    uri: &'m str,
    steps: &'m str,
    digest: &'m str,
    value: &'m str,
    entries: &'m str,
}

impl Made<'_> {
    fn manifest(&self, alloc: Global) -> Result<String, NoMemory> {
        joined(alloc, &["<Manifest Id=\"m\">", self.entries, "</Manifest>"])
    }

    fn text(&self, alloc: Global) -> Result<String, NoMemory> {
        let reference = joined(
            alloc,
            &[
                "<Reference Type=\"http://www.w3.org/2000/09/xmldsig#Manifest\" URI=\"",
                self.uri,
                "\">",
                self.steps,
                "<DigestMethod Algorithm=\"",
                DIGEST,
                "\"></DigestMethod><DigestValue>",
                self.digest,
                "</DigestValue></Reference>",
            ],
        )?;
        let manifest = self.manifest(alloc)?;
        let objects = joined(alloc, &["<Object>", &manifest, "</Object>", OBJECT])?;
        signature(alloc, C10, SHA256, "", &reference, self.value, &objects)
    }

    /// The view of the Manifest.
    fn view(&self, alloc: Global) -> Result<String, NoMemory> {
        joined(
            alloc,
            &[
                "<Manifest xmlns=\"http://www.w3.org/2000/09/xmldsig#\" Id=\"m\">",
                self.entries,
                "</Manifest>",
            ],
        )
    }
}

/// Runs a line over a document, of whose folder that call fails if one is named, and asserts how it ends and that a keeper has
/// just these views.
fn expect(
    rt: &impl Abort,
    alloc: Global,
    document: &str,
    line: &str,
    failing: Option<u64>,
    end: End<'_>,
    views: &[&str],
) -> Result<(), NoMemory> {
    let mut folder = folder_of(alloc, document)?;
    if let Some(call) = failing {
        folder.fail_call(call)?;
    }
    let mut keepers: Vec<Box<dyn ViewKeeper>> = Vec::new(alloc);
    keepers.push(Box::new(alloc, keeper(alloc, None)?)?)?;
    expect_over(rt, alloc, &mut folder, line, &mut keepers, end)?;
    expect_each(rt, keepers.as_slice(), &[views]);
    Ok(())
}

/// Runs both without the option and with it: the views are the same, and behind the report these lines are told.
fn expect_lines(
    rt: &impl Abort,
    alloc: Global,
    document: &str,
    report: &str,
    lines: &str,
    asked: usize,
    views: &[&str],
) -> Result<(), NoMemory> {
    let without = End {
        asked: 2,
        ..printed(Status::Valid, report)
    };
    expect(rt, alloc, document, LINE, None, without, views)?;
    let line = joined(alloc, &[LINE, " --manifests"])?;
    let out = joined(alloc, &[report, lines])?;
    let with = End {
        asked,
        ..printed(Status::Valid, &out)
    };
    expect(rt, alloc, document, &line, None, with, views)
}

#[test]
fn entries(rt: HostRuntime) -> Result<(), Fail> {
    let alloc = rt.alloc();
    let right = reference(alloc, "#obj", DIGEST, HELLO)?;
    let wrong = reference(alloc, "#obj", DIGEST, TWO)?;
    let file = reference(alloc, "e.bin", DIGEST, EMPTY)?;
    let nowhere = reference(alloc, "#none", DIGEST, HELLO)?;
    let no_base64 = joined(
        alloc,
        &[
            "<Reference URI=\"#obj\">",
            BASE64,
            "<DigestMethod Algorithm=\"",
            DIGEST,
            "\"></DigestMethod><DigestValue>",
            HELLO,
            "</DigestValue></Reference>",
        ],
    )?;
    let two = joined(alloc, &[&right, &wrong])?;
    let three = joined(alloc, &[&file, &nowhere, &no_base64])?;
    for (digest, value, entries, report, lines, asked) in [
        (
            "sKLQxPMDxYq03309fvaVeHLOY9E2jnMSY4jAyQCFjB4=",
            "6mmbQIOVYYb35m/Uq7wzwkLhplIGPrQNQlQWjVHk3eQ=",
            &two,
            "valid\nreference 1 octets 443\n",
            "manifest 1 entry 1 same\nmanifest 1 entry 2 differs\n",
            2,
        ),
        (
            "qzxFKgGuvC8vAaLul4XZWtnE1nx4JEdkZuK8YDsJVW8=",
            "eBqmbh9ZnvQkITDOtEoEHSzd8pluoSCSnx2FVE8Ouoo=",
            &three,
            "valid\nreference 1 octets 732\n",
            "manifest 1 entry 1 same\nmanifest 1 entry 2 refused NoSuchId\nmanifest 1 entry 3 refused step 1 NotBase64\n",
            3,
        ),
    ] {
        let made = Made {
            uri: "#m",
            steps: "",
            digest,
            value,
            entries,
        };
        let document = made.text(alloc)?;
        let view = made.view(alloc)?;
        expect_lines(&rt, alloc, &document, report, lines, asked, &[&view])?;
    }
    Ok(())
}

/// The octets of `PLAIN`, which spells them in base64.
const OCTETS: &str = "Thirty-two octets of plain text.";

const PLAIN: &str = "VGhpcnR5LXR3byBvY3RldHMgb2YgcGxhaW4gdGV4dC4=";

#[test]
fn manifests_without_entries(rt: HostRuntime) -> Result<(), Fail> {
    let alloc = rt.alloc();
    let plain = reference(alloc, "#obj", DIGEST, PLAIN)?;
    let empty = "<Manifest xmlns=\"http://www.w3.org/2000/09/xmldsig#\" Id=\"m\"></Manifest>";
    for (uri, steps, digest, value, entries, report, line, view) in [
        (
            "#m",
            BASE64,
            "M/VDsjgKpvf3ChDlH3KPs65qz+MAOpBgREDFc+ah+ZU=",
            "lKOPRQYEwi9Sg3BRUF1ucpBzF8nIJZ0IRMN2cLy36W0=",
            plain.as_str(),
            "valid\nreference 1 octets 32\n",
            "manifest 1 transforms\n",
            OCTETS,
        ),
        (
            "#obj",
            "",
            HELLO,
            "WauksNE3KzRLtEIwA87FH/4cVL2jE7T0DPC2al1fH5Y=",
            "",
            "valid\nreference 1 octets 74\n",
            "manifest 1 not-manifest\n",
            ONE,
        ),
        (
            "#m",
            "",
            "NO/4nDgCEkQvvHdJarzdFxaP/BSQYIvobpblleG3XTg=",
            "pviD1da/obtdVpNTZdnrYj4SmpvftM61nPL1Gyle50Q=",
            "",
            "valid\nreference 1 octets 71\n",
            "manifest 1 fields Missing Reference\n",
            empty,
        ),
    ] {
        let made = Made {
            uri,
            steps,
            digest,
            value,
            entries,
        };
        let document = made.text(alloc)?;
        expect_lines(&rt, alloc, &document, report, line, 2, &[view])?;
    }
    Ok(())
}

#[test]
fn nothing_is_told(rt: HostRuntime) -> Result<(), Fail> {
    let alloc = rt.alloc();
    let file = reference(alloc, "e.bin", DIGEST, EMPTY)?;
    let right = "P5IdtwlOA3cMVt2xY3pCTLU6nT0YpMxCuf5iEEuwU/4=";
    let wrong = "AAAA";
    let fault = End {
        err: "fault read\n",
        asked: 3,
        ..printed(Status::ReadFault, "")
    };
    let invalid = End {
        asked: 2,
        ..printed(Status::Invalid, "invalid signature\n")
    };
    let line = joined(alloc, &[LINE, " --manifests"])?;
    for (value, failing, end) in [(right, Some(2), fault), (wrong, None, invalid)] {
        let made = Made {
            uri: "#m",
            steps: "",
            digest: "ipWslSFV1EWfETieszYUgosscDpSepemyh1jPoaEJh8=",
            value,
            entries: &file,
        };
        let document = made.text(alloc)?;
        expect(&rt, alloc, &document, &line, failing, end, &[])?;
    }
    Ok(())
}
