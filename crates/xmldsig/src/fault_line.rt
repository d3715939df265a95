//! The line of a keeper's fault, made without memory.
ghost use Rattle.std.specs.Prelude.{◌≡◌, ◌≤◌, ◌+◌, ◌++◌, length, decimal};
ghost use Rattle.xmldsig.specs.Texts.{view_fault_line};

use arrayvec::ArrayString;
use itoa::Buffer;

/// Appends a piece, for which there is room.
fn put(line: &mut ArrayString<64>, piece: &str)
    requires { length line.old.bytes + length piece.now ≤ 64 }
    ensures { line.new.bytes ≡ line.old.bytes ++ piece.now }
{
    match line.try_push_str(piece) {
        Ok(()) => {}
        Err(_) => unreachable!(),
    }
}

/// Appends a number, for which there is room.
fn put_number(line: &mut ArrayString<64>, number: u64)
    requires { length line.old.bytes + 20 ≤ 64 }
    ensures bytes { line.new.bytes ≡ line.old.bytes ++ decimal number }
    ensures length { length line.new.bytes ≤ length line.old.bytes + 20 }
{
    let mut digits = Buffer::new();
    put(line, digits.format(number));
}

/// The line of a fault of a keeper at a view, as it is printed on standard error. Takes no memory.
pub(crate) fn view_fault_line(view: u64, keeper: u64) -> ArrayString<64>
    ensures { result.bytes ≡ view_fault_line view keeper }
{
    let mut line = ArrayString::new();
    put(&mut line, "fault view ");
    put_number(&mut line, view);
    put(&mut line, " ");
    put_number(&mut line, keeper);
    put(&mut line, "\n");
    line
}
