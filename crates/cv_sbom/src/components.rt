//! A list of components.
ghost use Rattle.std.specs.Prelude.{◌≡◌, IfOk, map};
ghost use Rattle.serde_json.specs.View.{items_of};
ghost use Rattle.cv_sbom.specs.ListRead.{packages_in, skipped_in};

use crate::component::package_in;
use cv_base::{NoMemory, Package};
use cv_osv::{Node, Texts};
use std::alloc::Global;

/// The packages that components are, and how many components are none.
#[derive(Drop)]
pub(crate) struct ComponentsRead {
    pub(crate) packages: Vec<Package>,
    pub(crate) skipped: u64,
}

/// Reads components in their order.
pub(crate) fn read_components<V: Node<T>, T: Texts>(
    alloc: Global,
    texts: &mut T,
    components: &[V],
) -> Result<ComponentsRead, NoMemory>
    ensures packages { IfOk result (λ read. read.packages.items ≡ packages_in (items_of (map V.data_of components.now))) }
    ensures skipped { IfOk result (λ read. read.skipped ≡ skipped_in (items_of (map V.data_of components.now))) }
{
    let count = components.len();
    let mut packages = Vec::new(alloc);
    let mut skipped = 0usize;
    let mut remaining = components;
    while let [component, rest @ ..] = remaining {
        match package_in(alloc, texts, component)? {
            Some(package) => packages.push(package)?,
            None => skipped += 1,
        }
        remaining = rest;
    }
    Ok(ComponentsRead {
        packages,
        skipped: skipped as u64,
    })
}
