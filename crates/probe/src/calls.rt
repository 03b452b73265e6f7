// The register's call and outcome question: frames 1 and 2.
use crate::page::Page;
use crate::{Unknown, page};
use register::Register;

// Frame 1: the call, with a buffer of that room.
pub(crate) fn call(
    register: &mut Register,
    payload: &[u8],
    page: &mut Page,
) -> Result<(), Unknown> {
    let (room, bytes) = page::room(payload)?;
    let mut buffer = page::FILLED;
    match register.call(bytes, page::lend(&mut buffer, room)?) {
        Ok(taken) => {
            write!(page, "taken {}", taken.consumed);
            page.written(&buffer, taken.written);
        }
        Err(refusal) => {
            page.refused(refusal);
            page.kept(&buffer);
        }
    }
    Ok(())
}

// Frame 2: the outcome question.
pub(crate) fn outcome(register: &Register, payload: &[u8], page: &mut Page) -> Result<(), Unknown> {
    if payload.len() != 6 {
        return Err(Unknown);
    }
    match register.outlook(layout::number2(payload, 0), layout::number4(payload, 2)) {
        Ok(outlook) => {
            write!(page, "outcome");
            page.state(outlook.state);
            write!(page, " {}", outlook.applied);
        }
        Err(refusal) => page.refused(refusal),
    }
    Ok(())
}
