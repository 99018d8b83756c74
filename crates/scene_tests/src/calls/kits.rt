//! A domain with a kit: an access to each structure, and a pile for what ends elsewhere.
ghost use Rattle.std.specs.Prelude.{◌≡◌, IfOk, IfSome};
ghost use Rattle.control_block.specs.Desks.{Belongs, allowance_of};
ghost use Rattle.scene_structures.specs.Stacks.{ServesDomain, StandsIn};

use crate::shapes::shape;
use control_block::census::close;
use control_block::desk::Desk;
use control_block::domain::{Domain, open};
use control_word::Refusal;
use scene_structures::{Observers, Scene, Stack};
use shared_handle::Pile;
use std::alloc::Global;

/// An access to each structure, and a pile.
pub(crate) struct Kit {
    pub(crate) stack: Stack<u64>,
    pub(crate) observers: Observers<u64>,
    pub(crate) scene: Scene<u64>,
    pub(crate) pile: Pile<u64>,
}

/// A domain and its first desk.
pub(crate) fn opened(
    alloc: Global,
    blocks: u32,
    allowance: u32,
) -> Result<(Domain<u64>, Desk<u64>), Refusal>
    ensures desk { IfOk result
        (λ r. Belongs r.1 r.0 × (allowance_of r.1 ≡ r.0.shape.allowance)) }
    ensures shape { IfOk result (λ r. r.0.shape.shared_cells ≡ 5) }
{
    open::<u64>(alloc, shape(blocks, allowance))
}

/// The same, once more where it is refused.
pub(crate) fn opened_again(
    alloc: Global,
    blocks: u32,
    allowance: u32,
) -> Result<(Domain<u64>, Desk<u64>), Refusal>
    ensures desk { IfOk result
        (λ r. Belongs r.1 r.0 × (allowance_of r.1 ≡ r.0.shape.allowance)) }
    ensures shape { IfOk result (λ r. r.0.shape.shared_cells ≡ 5) }
{
    match opened(alloc, blocks, allowance) {
        Ok(opened) => Ok(opened),
        Err(_) => opened(alloc, blocks, allowance),
    }
}

/// A sole desk closes its domain: how many vacant blocks it had.
pub(crate) fn shut(domain: Domain<u64>, desk: Desk<u64>) -> u32
    requires domain { Belongs desk domain }
    requires sole { allowance_of desk ≡ domain.shape.allowance }
{
    let stock = desk.stock();
    match close(domain, desk) {
        Ok(census) => drop(census),
        Err(_) => unreachable!(),
    }
    stock
}

/// A pile of the domain's, if there is memory.
fn pile_in(alloc: Global, domain: &Domain<u64>) -> Option<Pile<u64>>
    ensures { IfSome result (λ p. ServesDomain domain.now p) }
{
    match Pile::new(alloc, domain) {
        Ok(pile) => Some(pile),
        Err(_) => None,
    }
}

/// A scene and a pile, if there is memory.
fn scene_in(alloc: Global, domain: &Domain<u64>) -> Option<(Scene<u64>, Pile<u64>)>
    ensures scene { IfSome result (λ r. ServesDomain domain.now r.0) }
    ensures pile { IfSome result (λ r. ServesDomain domain.now r.1) }
{
    let Ok(scene) = Scene::new(alloc, domain) else {
        return None;
    };
    match pile_in(alloc, domain) {
        Some(pile) => Some((scene, pile)),
        None => {
            scene.close();
            None
        }
    }
}

/// A stack and observers, if there is memory.
fn lists_in(alloc: Global, domain: &Domain<u64>) -> Option<(Stack<u64>, Observers<u64>)>
    requires cells { domain.now.shape.shared_cells ≡ 5 }
    ensures stack { IfSome result (λ r. StandsIn r.0 domain.now) }
    ensures observers { IfSome result (λ r. StandsIn r.1 domain.now) }
{
    let Ok(stack) = Stack::new(alloc, domain, 0) else {
        return None;
    };
    match Observers::new(alloc, domain, 1) {
        Ok(observers) => Some((stack, observers)),
        Err(_) => {
            stack.close();
            None
        }
    }
}

/// A kit, if there is memory.
pub(crate) fn kit_in(alloc: Global, domain: &Domain<u64>) -> Option<Kit>
    requires cells { domain.now.shape.shared_cells ≡ 5 }
    ensures stands { IfSome result (λ k. StandsIn k.stack domain.now × StandsIn k.observers domain.now) }
    ensures serves { IfSome result (λ k. ServesDomain domain.now k.scene × ServesDomain domain.now k.pile) }
{
    let (stack, observers) = lists_in(alloc, domain)?;
    match scene_in(alloc, domain) {
        Some((scene, pile)) => {
            Some(Kit {
                stack,
                observers,
                scene,
                pile,
            })
        }
        None => {
            stack.close();
            observers.close();
            None
        }
    }
}

/// A kit, which is sought once more where memory is refused.
pub(crate) fn kit_again(alloc: Global, domain: &Domain<u64>) -> Option<Kit>
    requires cells { domain.now.shape.shared_cells ≡ 5 }
    ensures stands { IfSome result (λ k. StandsIn k.stack domain.now × StandsIn k.observers domain.now) }
    ensures serves { IfSome result (λ k. ServesDomain domain.now k.scene × ServesDomain domain.now k.pile) }
{
    match kit_in(alloc, domain) {
        Some(kit) => Some(kit),
        None => kit_in(alloc, domain),
    }
}

/// A kit is given up: how many objects were left in it to end.
pub(crate) fn put_away(kit: Kit) -> usize {
    let Kit {
        stack,
        observers,
        scene,
        pile,
    } = kit;
    stack.close();
    observers.close();
    let in_scene = scene.close();
    in_scene.saturating_add(pile.close())
}
