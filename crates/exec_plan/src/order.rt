/// In which order the callbacks run that are ready at a snapshot.
#[derive(Clone, Copy, Debug, PartialEq, Eq)]
pub enum Order {
    /// By kind, in the order of a wait set's kinds. Those of one kind run in the order of declaration, and a server's polls in
    /// the order of acceptance.
    Kind,
    /// By arrival. The callbacks of timers that are due come first. The others follow in the order in which their items were
    /// sent, or their goals were accepted or last pended.
    Arrival,
}
