// The frames of an input: a code, the length of a payload, and the payload.
ghost use Rattle.std.specs.Prelude.{◌<◌, length, IfSome};
ghost use Rattle.std.specs.Iterator.{at_most};

#[derive(Clone, Copy, Drop)]
pub(crate) struct Frame<'a> {
    pub(crate) code: u8,
    pub(crate) payload: &'a [u8],
}

// The frames that bytes hold, one behind the other; nothing in the place of a torn one, which is the last.
#[derive(Drop)]
pub(crate) struct Frames<'a>(pub(crate) &'a [u8]);

impl<'a> Iterator for Frames<'a> {
    type Item = Option<Frame<'a>>;

    ghost remaining = { λ s. at_most (length s.0.now) };

    fn next(&mut self) -> Option<Option<Frame<'a>>> {
        if self.0.is_empty() {
            return None;
        }
        let Some((frame, rest)) = first_of(self.0) else {
            self.0 = &[];
            return Some(None);
        };
        self.0 = rest;
        Some(Some(frame))
    }
}

// The frame that bytes begin with, and the bytes behind it; nothing where fewer are left than the frame has.
fn first_of(bytes: &[u8]) -> Option<(Frame<'_>, &[u8])>
    ensures { IfSome result (λ first. length first.1.now < length bytes.now) }
{
    let ([code, high, low], behind) = bytes.split_first_chunk::<3>()?;
    let (payload, rest) = behind.split_at_checked(u16::from_be_bytes([*high, *low]) as usize)?;
    Some((
        Frame {
            code: *code,
            payload,
        },
        rest,
    ))
}
