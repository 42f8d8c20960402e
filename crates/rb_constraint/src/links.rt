// The bodies of the links that a constraint names.
ghost use Rattle.std.specs.Prelude.{◌≡◌, ◌≤◌, IfSome, length};
ghost use Rattle.csv.specs.Records.{fields_of};
ghost use Rattle.rb_tree.specs.Groups.{body_of_link};
ghost use Rattle.rb_constraint.specs.Read.{link_or_world, links_of};

use csv::ByteRecord;
use rb_record::field;
use rb_tree::Robot;

/// The number of the body whose link has the name.
fn body_of_link(robot: &Robot, name: &[u8]) -> Option<u32>
    ensures { result ≡ body_of_link robot.now.bodies name.now }
{
    for i in 1..robot.bodies() + 1 {
        if robot.link_name(i) == name {
            return Some(i);
        }
    }
    None
}

/// The number of the body whose link has the name. An empty name is the world.
fn link_or_world(robot: &Robot, name: &[u8]) -> Option<u32>
    ensures { result ≡ link_or_world robot.now name.now }
{
    if name.is_empty() {
        Some(0)
    } else {
        body_of_link(robot, name)
    }
}

/// The two bodies that the fields of a constraint name.
#[tactic(auto, unfolding(crate::specs::Read::links_of))]
pub(crate) fn read_links(robot: &Robot, fields: &ByteRecord) -> Option<(u32, u32)>
    ensures { result ≡ links_of robot.now (fields_of fields.now) }
{
    let first = body_of_link(robot, field(fields, 2))?;
    let second = link_or_world(robot, field(fields, 6))?;
    Some((first, second))
}
