// The components of a policy in their order, against which labels are read and compared.
ghost use Rattle.std.specs.Prelude.{◌≡◌, ◌<◌, ◌≤◌, ◌↔◌, ◌++◌, ◌∷◌, [], length, IfOk, IsErr, IsTrue, OnOk, OnErr, slice_get, slice_index_or};
ghost use Rattle.std.specs.Option.{option_map};
ghost use Rattle.std.specs.Arc.{arc_value};
ghost use Rattle.lb_label.specs.Component.{Definition, IsComponent};
ghost use Rattle.lb_label.specs.Shape.{IsShape};

use crate::component::Component;
use arrayvec::ArrayVec;
use lb_base::NoMemory;
use std::marker::Model;
use std::sync::Arc;
use thiserror::Error;

/// The largest number of components of a policy.
pub const COMPONENT_LIMIT: usize = 16;

/// The components of a policy in policy order (CREATE SECURITY POLICY statement), at most 16. Contracts see the list.
#[derive(Drop)]
pub struct Shape {
    components: ArrayVec<Option<Arc<Component>>, { COMPONENT_LIMIT }>,
}

impl Model for Shape {
    ghost use Rattle.std.specs.Prelude.{List};
    ghost use Rattle.lb_label.specs.Component.{Definition};

    ghost Value = { List Definition };

    ghost use Rattle.lb_label.specs.Shape.{components_in, AllThere};

    ghost view = { λ s. components_in s.components.items };

    ghost invariant = { λ s. AllThere s.components.items };
}

/// Why a component is not added to a policy's components.
#[derive(Clone, Copy, Debug, PartialEq, Eq, Error)]
pub enum ShapeFault {
    /// There are 16 of them already.
    #[error("a policy has at most 16 components")]
    Full,
}

impl Shape {
    /// No component. It takes no memory.
    pub fn empty() -> Shape
        ensures { result ≡ [] }
    {
        Shape {
            components: ArrayVec::new(),
        }
    }

    /// How many components there are.
    pub fn len(&self) -> usize
        ensures len { result ≡ length self.now }
        ensures few { length self.now ≤ COMPONENT_LIMIT }
        ensures valid { IsShape self.now }
    {
        let _room = self.components.is_full();
        self.components.len()
    }

    /// Whether there is no component.
    pub fn is_empty(&self) -> bool
        ensures { IsTrue result ↔ (self.now ≡ []) }
    {
        self.len() == 0
    }

    /// Adds a component at the end. It is refused exactly where there are 16 already, and then nothing changes.
    /// It takes no memory.
    pub fn push(&mut self, component: Arc<Component>) -> Result<(), ShapeFault>
        ensures ok { OnOk result (self.new ≡ self.old ++ arc_value component ∷ []) }
        ensures err { OnErr result (self.new ≡ self.old) }
        ensures full { IsErr result ↔ (length self.old ≡ COMPONENT_LIMIT) }
    {
        let _elements = component.len();
        if self.components.is_full() {
            return Err(ShapeFault::Full);
        }
        self.components.push(Some(component));
        Ok(())
    }

    /// The component in this place, and `None` exactly past the last one.
    pub fn component(&self, at: u32) -> Option<&Arc<Component>>
        ensures { option_map (λ component. arc_value component.now) result ≡ slice_get self.now at }
    {
        if (at as usize) < self.len() {
            Some(self.held(at as usize))
        } else {
            None
        }
    }

    /// The component in this place.
    pub(crate) fn at(&self, at: usize) -> &Component
        requires { at < length self.now }
        ensures component { (d : Definition) → result.now ≡ slice_index_or self.now at d }
        ensures valid { IsComponent result.now }
    {
        self.held(at)
    }

    fn held(&self, at: usize) -> &Arc<Component>
        requires { at < length self.now }
        ensures component { (d : Definition) → arc_value result.now ≡ slice_index_or self.now at d }
        ensures valid { IsComponent (arc_value result.now) }
    {
        match &self.components.as_slice()[at] {
            Some(component) => component,
            None => unreachable!(),
        }
    }

    /// The same components once more. It fails only where memory runs out.
    pub fn copy(&self) -> Result<Shape, NoMemory>
        ensures { IfOk result (λ copy. copy ≡ self.now) }
    {
        let mut copy = Shape::empty();
        for at in 0..self.len() {
            let _ = copy.push(self.held(at).clone()?);
        }
        Ok(copy)
    }
}
