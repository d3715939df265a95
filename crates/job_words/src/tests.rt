//! Command lines, and the jobs that they name.

use crate::{Job, WordsFault, job_of};
use sig_base::NoMemory;
use std::alloc::Global;
use std::test::Fail;

/// The words of a line, with a space between them.
fn words_of(alloc: Global, line: &str) -> Result<Vec<String>, NoMemory> {
    let mut words = Vec::new(alloc);
    for word in line.split(' ') {
        words.push(String::from_str(alloc, word)?)?;
    }
    Ok(words)
}

#[test]
fn usage(rt: HostRuntime) -> Result<(), Fail> {
    let alloc = rt.alloc();
    for line in [
        "",
        "validate",
        "check d.xml --keys k.txt",
        "--help",
        "validate --help",
        "validate d.xml",
        "validate d.xml --keys k.txt --keys k.txt",
        "validate d.xml --keys k.txt e.xml",
        "validate d.xml --keys",
        "validate d.xml --keys=",
        "validate d.xml --keys -k",
        "validate d.xml --keys=-k",
        "validate d.xml --keys --manifests",
        "validate d.xml --keys k.txt --manifests=yes",
        "validate d.xml --keys k.txt --manifests --manifests",
        "validate d.xml --key k --key=k --keys k.txt",
        "validate d.xml --keys k.txt --index 0",
        "validate d.xml --keys k.txt --index 01",
        "validate d.xml --keys k.txt --index +1",
        "validate d.xml --keys k.txt --index 1000001",
        "validate d.xml --keys k.txt --index 99999999999999999999",
        "validate d.xml --keys k.txt --",
        "validate d.xml --keys k.txt -m",
        "validate d.xml --keys k.txt --man",
        "validate d.xml --keys k.txt --=v",
        "validate d.xml --keys k.txt --key \u{1}",
        "validate d.xml --keys k.txt --base d",
        "validate d.xml --keys k.txt --base https://h/a?q",
        "sign d.xml --keys k.txt --views v",
        "canon d.xml",
        "canon d.xml --method c14n12",
        "canon d.xml --method c14n10 --prefixes a",
        "canon d.xml --method exc --id a --xpath b",
        "template d.xml --digest md5",
        "selftest 0",
        "selftest 100001",
        "selftest 1 2",
        "selftest",
    ] {
        let words = words_of(alloc, line)?;
        let fault = job_of(alloc, &words);
        assert!(rt; matches!(fault, Err(WordsFault::Usage)));
    }
    Ok(())
}

#[test]
fn validations(rt: HostRuntime) -> Result<(), Fail> {
    let alloc = rt.alloc();
    for line in [
        "validate d.xml --keys k.txt --views v --index 2 --manifests",
        "validate --views=v --manifests --keys=k.txt d.xml --index=2",
        "validate --index 2 d.xml --manifests --views v --keys k.txt",
    ] {
        let words = words_of(alloc, line)?;
        let Ok(
            Job::Validate {
                asked,
                views,
                manifests,
            },
        ) = job_of(alloc, &words)
        else {
            panic!(rt);
        };
        assert!(rt; asked.doc.as_str() == "d.xml");
        assert!(rt; asked.keys.as_str() == "k.txt");
        assert!(rt; asked.key.is_none());
        assert_eq!(rt; asked.index, 2);
        assert!(rt; asked.catalog.is_none());
        let Some(views) = views else {
            panic!(rt);
        };
        assert!(rt; views.as_str() == "v");
        assert!(rt; manifests);
    }
    Ok(())
}
