ghost use Rattle.std.specs.Prelude.{◌≡◌, true, count_by};
ghost use Rattle.policy_rules.specs.Commands.{attributes_of, has_its_sections, is_attributes, stands_at_most_once, stands_once};
ghost use Rattle.policy_items.specs.working.Kinds.{is_of_kind};

use policy_ast::{Attribute, Section};

/// Which section of a command it is.
#[derive(Clone, Copy)]
pub enum SectionKind {
    Attributes,
    Fields,
    Seal,
    Open,
    Policy,
    Recall,
}

fn is_of_kind(kind: SectionKind, section: &Section) -> bool
    ensures { result ≡ is_of_kind kind section.now }
{
    match kind {
        SectionKind::Attributes => matches!(section, Section::Attributes(_)),
        SectionKind::Fields => matches!(section, Section::Fields(_)),
        SectionKind::Seal => matches!(section, Section::Seal),
        SectionKind::Open => matches!(section, Section::Open),
        SectionKind::Policy => matches!(section, Section::Policy(_)),
        SectionKind::Recall => matches!(section, Section::Recall(_)),
    }
}

fn count(kind: SectionKind, sections: &[Section]) -> usize
    ensures { result ≡ count_by (is_of_kind kind) sections.now }
{
    let mut count = 0;
    for section in sections {
        if is_of_kind(kind, section) {
            count += 1;
        }
    }
    count
}

fn stands_once(kind: SectionKind, sections: &[Section]) -> bool
    ensures { result ≡ stands_once (is_of_kind kind) sections.now }
{
    count(kind, sections) == 1
}

fn stands_at_most_once(kind: SectionKind, sections: &[Section]) -> bool
    ensures { result ≡ stands_at_most_once (is_of_kind kind) sections.now }
{
    count(kind, sections) <= 1
}

/// Fields, seal, open and policy once, recall and attributes at most once, in any order.
pub fn has_its_sections(sections: &[Section]) -> bool
    ensures { result ≡ has_its_sections sections.now }
{
    stands_once(SectionKind::Fields, sections)
        && stands_once(SectionKind::Seal, sections)
        && stands_once(SectionKind::Open, sections)
        && stands_once(SectionKind::Policy, sections)
        && stands_at_most_once(SectionKind::Recall, sections)
        && stands_at_most_once(SectionKind::Attributes, sections)
}

/// The attributes of a command that has its sections.
pub fn attributes_of(sections: &[Section]) -> &[Attribute]
    requires { has_its_sections sections.now ≡ true }
    ensures { result.now ≡ attributes_of sections.now }
{
    for section in sections {
        if let Section::Attributes(attributes) = section {
            return attributes.as_slice();
        }
    }
    &[]
}
