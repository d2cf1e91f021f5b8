// Edges: the items of a chart, passive and active.

/// An item of a chart over a span, which goes from a node to the same or a later one.
#[derive(Clone, Copy, PartialEq, Eq, Debug)]
pub enum Edge {
    /// A symbol over a span.
    Passive {
        symbol: u8,
        from: u8,
        to: u8,
    },
    /// A dotted rule over a span: `seen` right symbols stand before the dot, at least one and not all.
    Active {
        rule: u8,
        seen: u8,
        from: u8,
        to: u8,
    },
}
