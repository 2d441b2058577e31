//! How specific selectors are.
ghost use Rattle.std.specs.Prelude.{◌≡◌, ◌<◌, IfOk};
ghost use Rattle.css_selectors.specs.Sizes.{compound_size, test_size};

use css_selectors::{
    Compound, Link, Nth, Part, Selector, Simple, Tail, Test, Triple, Weight, specificity,
};
use std::alloc::Global;
use std::test::Fail;
use text_base::{NoMemory, Seq, Txt};

/// The specificity of a selector of one part with one simple, which is negated.
fn counted(alloc: Global, element: Option<Txt>, test: Test, tail: Tail) -> Result<Triple, NoMemory>
    requires { test_size test < 1000 }
{
    let simples = Seq::from_vec(vec![in alloc;
        Simple {
            negated: true,
            test
        },
    ]?);
    let part = Part {
        link: Link::First,
        element,
        simples,
    };
    let parts = Seq::from_vec(vec![in alloc; part]?);
    Ok(specificity(&Selector { parts, tail }))
}

/// A compound of one simple.
fn compound(alloc: Global, test: Test) -> Result<Compound, NoMemory>
    requires { test_size test ≡ 0 }
    ensures { IfOk result (λ c. compound_size c ≡ 1) }
{
    let simples = Seq::from_vec(vec![in alloc;
        Simple {
            negated: false,
            test
        },
    ]?);
    Ok(Compound {
        element: None,
        simples,
    })
}

/// `:is(#y, .x)`, or `:where(#y, .x)`
#[tactic(auto, using(css_selectors::proofs::Equations::size_of_id, css_selectors::proofs::Equations::size_of_class))]
fn choice(alloc: Global, weight: Weight) -> Result<Test, NoMemory>
    ensures { IfOk result (λ t. test_size t ≡ 2) }
{
    let y = compound(alloc, Test::Id(Txt::of(alloc, "y")?))?;
    let x = compound(alloc, Test::Class(Txt::of(alloc, "x")?))?;
    Ok(Test::Any(weight, Seq::from_vec(vec![in alloc; y, x]?)))
}

/// `li:not(:last-of-type)`
#[tactic(auto, using(css_selectors::proofs::Equations::size_of_nth))]
fn last(alloc: Global) -> Result<Triple, NoMemory> {
    let li = Txt::of(alloc, "li")?;
    counted(
        alloc,
        Some(li),
        Test::Nth(Nth::LastOfType, 0, 1),
        Tail::Element,
    )
}

/// `:not(#a)::text`
#[tactic(auto, using(css_selectors::proofs::Equations::size_of_id))]
fn id(alloc: Global) -> Result<Triple, NoMemory> {
    let a = Txt::of(alloc, "a")?;
    counted(alloc, None, Test::Id(a), Tail::Text)
}

/// `*:not(*)`
#[tactic(auto, using(css_selectors::proofs::Equations::size_of_element))]
fn star(alloc: Global) -> Result<Triple, NoMemory> {
    counted(alloc, None, Test::Element(None), Tail::Element)
}

/// `a:not(:is(#y, .x))`, or the same with `:where`
fn chosen(alloc: Global, weight: Weight) -> Result<Triple, NoMemory> {
    let a = Txt::of(alloc, "a")?;
    let test = choice(alloc, weight)?;
    counted(alloc, Some(a), test, Tail::Element)
}

#[test]
fn specificities(rt: HostRuntime) -> Result<(), Fail> {
    let alloc = rt.alloc();
    let rows = [
        (last(alloc)?, (0, 1, 1)),
        (id(alloc)?, (1, 0, 1)),
        (star(alloc)?, (0, 0, 0)),
        (chosen(alloc, Weight::Most)?, (1, 0, 1)),
        (chosen(alloc, Weight::Zero)?, (0, 0, 1)),
    ];
    for (got, (a, b, c)) in rows {
        assert_eq!(rt; got, Triple { a, b, c });
    }
    Ok(())
}
