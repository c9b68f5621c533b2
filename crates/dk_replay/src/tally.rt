// How much was compared.

/// How many samples were fed, how many answers, counts, agreements, other parts (leaders, constants, patterns, and their numbers) and
/// slots were compared, and how many of these differed.
#[derive(Clone, Copy, Drop)]
pub struct Tally {
    pub samples: u64,
    pub answers: u64,
    pub counts: u64,
    pub agreements: u64,
    pub parts: u64,
    pub slots: u64,
    pub differ: u64,
}

impl Tally {
    /// Nothing has been compared yet.
    pub fn new() -> Tally {
        Tally {
            samples: 0,
            answers: 0,
            counts: 0,
            agreements: 0,
            parts: 0,
            slots: 0,
            differ: 0,
        }
    }

    // One difference more, unless the two are the same.
    fn judge(&mut self, same: bool) {
        if !same {
            self.differ = self.differ.saturating_add(1);
        }
    }

    /// A sample was fed.
    pub fn sample(&mut self) {
        self.samples = self.samples.saturating_add(1);
    }

    /// An answer was compared.
    pub fn answer(&mut self, same: bool) {
        self.answers = self.answers.saturating_add(1);
        self.judge(same);
    }

    /// A count was compared.
    pub fn count(&mut self, same: bool) {
        self.counts = self.counts.saturating_add(1);
        self.judge(same);
    }

    /// Whether two variables agree was compared.
    pub fn agreement(&mut self, same: bool) {
        self.agreements = self.agreements.saturating_add(1);
        self.judge(same);
    }

    /// A leader, a constant, a pattern or the number of these was compared.
    pub fn part(&mut self, same: bool) {
        self.parts = self.parts.saturating_add(1);
        self.judge(same);
    }

    /// A slot was compared, or the end of all slots.
    pub fn slot(&mut self, same: bool) {
        self.slots = self.slots.saturating_add(1);
        self.judge(same);
    }

    /// What the other one has comes to this one.
    pub fn add(&mut self, other: &Tally) {
        self.samples = self.samples.saturating_add(other.samples);
        self.answers = self.answers.saturating_add(other.answers);
        self.counts = self.counts.saturating_add(other.counts);
        self.agreements = self.agreements.saturating_add(other.agreements);
        self.parts = self.parts.saturating_add(other.parts);
        self.slots = self.slots.saturating_add(other.slots);
        self.differ = self.differ.saturating_add(other.differ);
    }
}
