// Octets of connections, each with a line that says what is read of them, and responses.
mod pieces;
mod responses;
mod rows;

use edge_io::{MemSource, Source};
use http_front::{FrontRefusal, read_request};
use qkd_base::{Memory, Octets};
use rows::{CUT, CUT_WANT, LONG, Long, ROWS};
use std::alloc::Global;
use std::test::Fail;

// The next request, with the numbers of its fields and of its body's octets, or why there is none.
fn line<S: Source>(alloc: Global, source: &mut S, kept: &mut Octets) -> Result<String, Memory> {
    let text = match read_request(alloc, source, kept) {
        Ok(request) => {
            let method = String::from_utf8_lossy(alloc, request.method.as_slice())?;
            let target = String::from_utf8_lossy(alloc, request.target.as_slice())?;
            let fields = request.fields.len();
            let body = request.body.len();
            let close = if request.close { " close" } else { "" };
            format!(in alloc; "{method} {target} {fields} {body}{close}")?
        }
        Err(FrontRefusal::BadHead | FrontRefusal::TooManyHeaders) => {
            String::from_str(alloc, "bad head")?
        }
        Err(refusal) => format!(in alloc; "{refusal}")?,
    };
    Ok(text)
}

// Notes what was found where it is not what is wanted.
fn note(case: &str, found: &str, want: &str, wrong: &mut String) -> Result<(), Memory> {
    if found != want {
        wrong.push_str(case)?;
        wrong.push_str(": ")?;
        wrong.push_str(found)?;
        wrong.push('\n')?;
    }
    Ok(())
}

// What is read of octets that were kept and of those that come.
fn compare(
    alloc: Global,
    kept: &[u8],
    left: &[u8],
    want: &str,
    wrong: &mut String,
) -> Result<(), Memory> {
    let mut source = MemSource::new(left.to_vec(alloc)?, Vec::new(alloc));
    let mut kept = Octets::from_slice(alloc, kept)?;
    let found = line(alloc, &mut source, &mut kept)?;
    note(want, found.as_str(), want, wrong)
}

// A request that is cut behind each octet: the rest comes, or the end.
fn compare_cut(alloc: Global, wrong: &mut String) -> Result<(), Memory> {
    for cut in 1..CUT.len() {
        let (front, back) = CUT.as_bytes().split_at(cut);
        compare(alloc, front, back, CUT_WANT, wrong)?;
        compare(alloc, &[], front, "input ended", wrong)?;
    }
    Ok(())
}

fn compare_long(alloc: Global, row: &Long, wrong: &mut String) -> Result<(), Memory> {
    let mut octets = String::from_str(alloc, row.front)?;
    for _ in 0..row.count {
        octets.push_str(row.part)?;
    }
    octets.push_str(row.back)?;
    compare(alloc, &[], octets.as_bytes(), row.want, wrong)
}

// A read that fails, and the next one, with what is kept behind it.
fn compare_fault(alloc: Global, wrong: &mut String) -> Result<(), Memory> {
    let mut source = MemSource::new(b"HTTP/1.1\r\n\r\nx".to_vec(alloc)?, [0].to_vec(alloc)?);
    let mut kept = Octets::from_slice(alloc, b"GET / ")?;
    for want in ["read fault", "GET / 0 0"] {
        let found = line(alloc, &mut source, &mut kept)?;
        note(want, found.as_str(), want, wrong)?;
    }
    if kept.as_slice() != b"x".as_slice() {
        wrong.push_str("kept")?;
    }
    Ok(())
}

// The rows that are answered otherwise, and how.
fn wrong(alloc: Global) -> Result<String, Memory> {
    let mut wrong = String::new(alloc);
    for (octets, want) in ROWS {
        compare(alloc, &[], octets.as_bytes(), want, &mut wrong)?;
    }
    for row in LONG {
        compare_long(alloc, row, &mut wrong)?;
    }
    compare_cut(alloc, &mut wrong)?;
    compare_fault(alloc, &mut wrong)?;
    pieces::compare(alloc, &mut wrong)?;
    responses::compare(alloc, &mut wrong)?;
    Ok(wrong)
}

#[test]
fn each_row_is_answered(rt: HostRuntime) -> Result<(), Fail> {
    let wrong = wrong(rt.alloc())?;
    assert_eq!(rt; wrong.as_str(), "");
    Ok(())
}
