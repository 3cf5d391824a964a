ghost use Rattle.std.specs.Prelude.{◌≡◌, ◌<◌, Some, length, true};
ghost use Rattle.std.specs.Str.{bytes_eq};
ghost use Rattle.world.specs.Worlds.{kept_of};
ghost use Rattle.world.specs.working.Places.{is_named, place_in};

use base_bytes::Text;
use command::Graph;
use fact_store::FactBase;
use outside::Disk;
use policy_meaning::Runner;
use replica::Replica;
use std::marker::Model;

/// A replica by its name.
#[derive(Drop)]
pub struct Named<R: Runner, G: Graph, F: FactBase, D: Disk> {
    pub name: Text,
    pub replica: Replica<R, G, F, D>,
}

impl<R: Runner, G: Graph, F: FactBase, D: Disk> Model for Named<R, G, F, D> {
    ghost use Rattle.std.specs.Coded.{codes};
    ghost use Rattle.base_bytes.specs.contracts.value.Value as value;
    ghost use Rattle.policy_ast.specs.contracts.policy.PlacedItem as placed_item;
    ghost use Rattle.world.specs.Worlds.{Named};

    ghost Value = { Named D };

    ghost coded = { Prim.hlevel (codes, value.the_row.coded, placed_item.the_row.coded) };

    ghost view = { λ n. record { name = n.name; kept = n.replica } };
}

fn has_name<R: Runner, G: Graph, F: FactBase, D: Disk>(one: &Named<R, G, F, D>, name: &Text) -> bool
    ensures { result ≡ bytes_eq one.now.name name.now }
{
    one.name == *name
}

/// The place of the replica of this name, of which there is one.
pub fn place_of<R: Runner, G: Graph, F: FactBase, D: Disk>(
    replicas: &[Named<R, G, F, D>],
    name: &Text,
) -> usize
    requires there { is_named replicas.now name.now ≡ true }
    ensures place { result ≡ place_in replicas.now name.now }
    ensures inside { result < length replicas.now }
{
    for place in 0..replicas.len() {
        if has_name(&replicas[place], name) {
            return place;
        }
    }
    unreachable!()
}

/// The replica of this name.
pub fn replica_of<'a, R: Runner, G: Graph, F: FactBase, D: Disk>(
    replicas: &'a [Named<R, G, F, D>],
    name: &Text,
) -> &'a Replica<R, G, F, D>
    requires there { is_named replicas.now name.now ≡ true }
    ensures { kept_of replicas.now name.now ≡ Some result.now }
{
    let one = &replicas[place_of(replicas, name)];
    &one.replica
}
