use cv_base::{Digest, NoMemory, PackageName, Text};
use cv_tree::{Remake, Share, Shared, Tree};
use std::alloc::Global;
use std::test::Fail;

fn is_shared<T: Send + Sync>() {}

#[test]
fn trees_are_shared_by_threads() {
    is_shared::<(Shared<Text>, Tree<u64, Shared<Text>>)>();
    is_shared::<Tree<Digest, Tree<Digest, ()>>>();
}

/// A tree of these keys, each with the next number as its value.
fn filled(alloc: Global, keys: &[u64]) -> Result<Tree<u64, u64>, NoMemory> {
    let mut tree = Tree::new();
    for key in keys {
        let next = tree.set(alloc, *key, key.wrapping_add(1))?;
        tree = next;
    }
    Ok(tree)
}

/// The tree of these keys without one.
fn filled_without(alloc: Global, keys: &[u64], out: u64) -> Result<Tree<u64, u64>, NoMemory> {
    filled(alloc, keys)?.without(alloc, &out)
}

/// Whether each value is the number after its key.
fn has_next_numbers(alloc: Global, tree: &Tree<u64, u64>) -> Result<bool, NoMemory> {
    for (key, value) in tree.entries(alloc)? {
        if *value != key.wrapping_add(1) {
            return Ok(false);
        }
    }
    Ok(true)
}

#[test]
fn keys_go_in_and_out(rt: HostRuntime) -> Result<(), Fail> {
    let cases: [(&[u64], u64, &[u64]); 4] = [
        (&[], 4, &[]),
        (&[2, 1], 2, &[1]),
        (&[1, 2, 3, 4, 5, 6, 7], 4, &[1, 2, 3, 5, 6, 7]),
        (
            &[5, 1, 9, 3, 7, 2, 8, 4, 6, 3],
            10,
            &[1, 2, 3, 4, 5, 6, 7, 8, 9],
        ),
    ];
    for (keys, out, want) in cases {
        let tree = filled_without(rt.alloc(), keys, out)?;
        assert_eq!(rt; tree.keys(rt.alloc())?.as_slice(), want, "without {out}");
        assert!(rt; has_next_numbers(rt.alloc(), &tree)?, "without {out}");
    }
    Ok(())
}

fn number_at(tree: &Tree<Digest, Shared<u64>>, key: &Digest) -> Option<u64> {
    let found = tree.get(key)?;
    Some(*found.value())
}

#[test]
fn shared_values_stand_under_digests(rt: HostRuntime) -> Result<(), Fail> {
    let key = Digest::of([1; 32]);
    let tree = Tree::new().set(rt.alloc(), key, Shared::of(rt.alloc(), 10)?)?;
    let copy = tree.share()?;
    assert_eq!(rt; number_at(&copy, &key), Some(10));
    assert!(rt; tree.without(rt.alloc(), &key)?.is_empty());
    Ok(())
}

/// The name of a package of Debian 12.
fn debian_name(alloc: Global, name: &str) -> Result<PackageName, NoMemory> {
    Ok(PackageName {
        ecosystem: Text::of(alloc, "Debian:12")?,
        name: Text::of(alloc, name)?,
    })
}

#[test]
fn names_of_packages_are_keys(rt: HostRuntime) -> Result<(), Fail> {
    let openssl = debian_name(rt.alloc(), "openssl")?;
    let zlib = debian_name(rt.alloc(), "zlib")?;
    let one = Tree::new().set(rt.alloc(), zlib.share()?, 2)?;
    let two = one.set(rt.alloc(), openssl.share()?, 1)?;
    assert_eq!(rt;
        (two.get(&openssl).copied(), two.get(&zlib).copied()),
        (Some(1), Some(2))
    );
    assert!(rt; two.without(rt.alloc(), &openssl)?.get(&openssl).is_none());
    assert_eq!(rt;
        two.keys(rt.alloc())?.as_slice(),
        [openssl, zlib].as_slice()
    );
    Ok(())
}

/// Doubles the even values, and gives the key of each as a row.
struct Doubled;

impl<K: Share + Drop> Remake<K, u64> for Doubled {
    type Row = K;

    type Tally = u64;

    ghost use Rattle.std.specs.Prelude.{ℕ, ◌%◌, ◌*◌, ◌==◌, [], ◌∷◌, if◌then◌else◌};

    ghost made = { λ _ _ v. if v % 2 == 0 then 2 * v else v };

    ghost added = { λ _ k _. k ∷ [] };

    ghost cost = { λ _ _ _. 1 };

    ghost costs = { λ n. n };

    fn remake(
        &self,
        _alloc: Global,
        key: &K,
        old: &u64,
        rows: &mut Vec<K>,
        tally: &mut u64,
    ) -> Result<Option<u64>, NoMemory> {
        rows.push(key.share()?)?;
        *tally = tally.saturating_add(1);
        if *old % 2 != 0 {
            return Ok(None);
        }
        match old.checked_mul(2) {
            Some(new) => Ok(Some(new)),
            None => Err(NoMemory),
        }
    }
}

#[test]
fn values_are_made_anew(rt: HostRuntime) -> Result<(), Fail> {
    let tree = filled(rt.alloc(), &[1, 2, 3])?;
    let mut rows = Vec::new(rt.alloc());
    let mut tally = 0;
    let new = tree.remake(rt.alloc(), &Doubled, &mut rows, &mut tally)?;
    assert_eq!(rt;
        (new.get(&1).copied(), new.get(&2).copied()),
        (Some(4), Some(3))
    );
    assert_eq!(rt; rows.as_slice(), [1, 2, 3].as_slice());
    assert_eq!(rt; tally, 3);
    Ok(())
}

/// Of the chosen keys, 2 and 20 have no value.
#[test]
fn values_are_made_anew_at_chosen_keys(rt: HostRuntime) -> Result<(), Fail> {
    let tree = filled(rt.alloc(), &[1, 3, 5, 7, 9, 11, 13])?;
    let mut rows = Vec::new(rt.alloc());
    let mut tally = 0;
    let keys = [2, 3, 9, 20];
    let new = tree.remake_at(rt.alloc(), &keys, &Doubled, &mut rows, &mut tally)?;
    for (key, want) in [(1, 2), (3, 8), (5, 6), (7, 8), (9, 20), (11, 12), (13, 14)] {
        assert_eq!(rt; new.get(&key).copied(), Some(want), "at {key}");
    }
    assert_eq!(rt; rows.as_slice(), [3, 9].as_slice());
    assert_eq!(rt; tally, 2);
    Ok(())
}

#[test]
fn values_are_made_anew_at_a_name(rt: HostRuntime) -> Result<(), Fail> {
    let openssl = debian_name(rt.alloc(), "openssl")?;
    let zlib = debian_name(rt.alloc(), "zlib")?;
    let tree = Tree::new()
        .set(rt.alloc(), openssl.share()?, 10)?
        .set(rt.alloc(), zlib.share()?, 20)?;
    let mut rows = Vec::new(rt.alloc());
    let mut tally = 0;
    let keys = [zlib.share()?];
    let new = tree.remake_at(rt.alloc(), &keys, &Doubled, &mut rows, &mut tally)?;
    assert_eq!(rt;
        (new.get(&openssl).copied(), new.get(&zlib).copied()),
        (Some(10), Some(40))
    );
    assert_eq!(rt; rows.as_slice(), [zlib].as_slice());
    Ok(())
}
