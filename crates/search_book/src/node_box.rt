ghost use Rattle.std.specs.Prelude.{◌≡◌, IfOk, IfSome};

use interval_box::IntervalBox;
use std::alloc::Global;
use std::marker::Model;
use std::snapshot::Snapshot;
use tqd_base::Memory;

/// The box of a node. It is held on the heap until it is let go; contracts see the box all the time.
#[derive(Drop)]
#[derive_where(Debug)]
pub struct NodeBox {
    #[derive_where(skip)]
    shown: Snapshot<IntervalBox>,
    held: Option<Box<IntervalBox>>,
}

impl Model for NodeBox {
    ghost use Rattle.std.specs.Prelude.{◌≡◌, IfSome};
    ghost use Rattle.interval_box.specs.declared.boxes.IntervalBox.{IntervalBox};

    ghost Value = { IntervalBox };

    ghost view = { λ b. b.shown.value };

    ghost invariant = { λ b. IfSome b.held (λ held. held.value ≡ b.shown.value) };
}

impl NodeBox {
    /// A box that is held.
    pub fn hold(alloc: Global, area: IntervalBox) -> Result<NodeBox, Memory>
        ensures { IfOk result (λ made. made ≡ area) }
    {
        let shown = Snapshot::of(&area);
        let held = Some(Box::new(alloc, area)?);
        Ok(NodeBox { shown, held })
    }

    /// The box, or none where it was let go.
    pub fn held(&self) -> Option<IntervalBox>
        ensures { IfSome result (λ area. area ≡ self.now) }
    {
        match &self.held {
            Some(area) => Some(**area),
            None => None,
        }
    }

    /// Gives back the memory of the box.
    pub fn let_go(&mut self)
        ensures { self.new ≡ self.old }
    {
        self.held = None;
    }
}
