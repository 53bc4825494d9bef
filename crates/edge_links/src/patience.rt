//! How long a link that was dialled waits for its first bytes.

/// How many reads may still bring nothing before the first bytes came. Behind these none is
/// counted: an idle link is no lost one.
#[derive(Clone, Copy)]
pub struct Patience {
    left: Option<u64>,
}

impl Patience {
    /// One that does not end.
    pub fn endless() -> Self {
        Patience { left: None }
    }

    pub fn of(reads: u64) -> Self {
        Patience { left: Some(reads) }
    }

    /// A read brought nothing. Whether that was once too often.
    pub fn is_over(&mut self) -> bool {
        match self.left {
            None => false,
            Some(left) => {
                self.left = Some(left.saturating_sub(1));
                left == 0
            }
        }
    }

    /// Bytes came. Whether they are the first that were waited for.
    pub fn ends(&mut self) -> bool {
        self.left.take().is_some()
    }
}
