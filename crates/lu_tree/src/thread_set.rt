//! Sets of threads.

/// Some of the threads.
#[derive(Clone, Copy)]
pub(crate) struct ThreadSet {
    is_in: [bool; 8],
    count: u8,
}

impl ThreadSet {
    /// No thread.
    pub(crate) const NONE: ThreadSet = ThreadSet {
        is_in: [false; 8],
        count: 0,
    };

    /// These and the thread.
    #[inline(always)]
    pub(crate) fn with(self, thread: u8) -> ThreadSet {
        let mut threads = self;
        if let Some(is_in) = threads.is_in.get_mut(usize::from(thread)) {
            if !*is_in {
                *is_in = true;
                threads.count = threads.count.saturating_add(1);
            }
        }
        threads
    }

    /// These but the thread.
    #[inline(always)]
    pub(crate) fn without(self, thread: u8) -> ThreadSet {
        let mut threads = self;
        if let Some(is_in) = threads.is_in.get_mut(usize::from(thread)) {
            if *is_in {
                *is_in = false;
                threads.count = threads.count.saturating_sub(1);
            }
        }
        threads
    }

    /// Whether there are none.
    #[inline(always)]
    pub(crate) fn is_empty(&self) -> bool {
        self.count == 0
    }
}
