// The URLs of keys.
ghost use Rattle.std.specs.Prelude.{◌≡◌, [], ◌∷◌, ◌++◌, IfOk, OnOk, OnErr, ◌&&◌, nat_eq, bytes_eq, filter, map, option_map, option_copied, slice_get};
ghost use Rattle.std.specs.List.{starts_with};
ghost use Rattle.registers.specs.Links.{link_of, with_link, without_link, urls_at};

use ann_key::NoMemory;
use std::alloc::Global;
use std::collections::BTreeSet;
use std::marker::Model;

// A key and its URL.
type Link = (Vec<u8>, Vec<u8>);

/// Keys and their URLs, in rising byte order of the keys and then of the URLs.
#[derive(Drop)]
pub(crate) struct Links {
    links: BTreeSet<Link>,
}

impl Model for Links {
    ghost use Rattle.registers.specs.Tables.{Texts};
    ghost use Rattle.registers.specs.Links.{LinksRise, links_of};

    ghost Value = { Texts };

    ghost view = { λ l. links_of l.links.keys };

    ghost invariant = { λ l. LinksRise (links_of l.links.keys) };
}

impl Links {
    pub(crate) fn new(alloc: Global) -> Links
        ensures { result ≡ [] }
    {
        Links {
            links: BTreeSet::new(alloc),
        }
    }

    pub(crate) fn add(&mut self, alloc: Global, key: &[u8], url: &[u8]) -> Result<(), NoMemory>
        ensures ok { OnOk result (self.new ≡ with_link self.old key.now url.now) }
        ensures err { OnErr result (self.new ≡ self.old) }
    {
        let key = Vec::from_slice(alloc, key)?;
        let url = Vec::from_slice(alloc, url)?;
        self.links.insert((key, url))?;
        Ok(())
    }

    pub(crate) fn remove(&mut self, alloc: Global, key: &[u8], url: &[u8]) -> Result<(), NoMemory>
        ensures ok { OnOk result (self.new ≡ without_link self.old key.now url.now) }
        ensures err { OnErr result (self.new ≡ self.old) }
    {
        let link = (Vec::from_slice(alloc, key)?, Vec::from_slice(alloc, url)?);
        self.links.remove(&link);
        Ok(())
    }

    pub(crate) fn url(&self, key: &[u8], prefix: &[u8], n: usize) -> Option<&[u8]>
        ensures { option_map (λ url. url.now) result ≡ slice_get (urls_at self.now key.now prefix.now) n }
    {
        let link = matching(&self.links, key, prefix, n)?;
        Some(link.1.as_slice())
    }

    /// The URLs of the key that begin with the prefix, lent, in their order.
    pub(crate) fn urls<'a>(
        &'a self,
        alloc: Global,
        key: &[u8],
        prefix: &[u8],
    ) -> Result<Vec<&'a [u8]>, NoMemory>
        ensures { IfOk result (λ urls. map (λ url. url.now) urls.items ≡ urls_at self.now key.now prefix.now) }
    {
        let mut urls = Vec::new(alloc);
        for link in self.links.iter() {
            push_match(&mut urls, link, key, prefix)?;
        }
        Ok(urls)
    }

    pub(crate) fn entry(&self, n: usize) -> Option<(&[u8], &[u8])>
        ensures { option_map (λ e. (e.0.now, e.1.now)) result ≡ slice_get self.now n }
    {
        let (key, url) = self.links.iter().nth(n)?;
        Some((key.as_slice(), url.as_slice()))
    }

    /// All keys and their URLs, lent, in their order.
    pub(crate) fn all(&self, alloc: Global) -> Result<Vec<(&[u8], &[u8])>, NoMemory>
        ensures { IfOk result (λ all. map (λ e. (e.0.now, e.1.now)) all.items ≡ self.now) }
    {
        let mut all = Vec::new(alloc);
        for (key, url) in self.links.iter() {
            all.push((key.as_slice(), url.as_slice()))?;
        }
        Ok(all)
    }

    pub(crate) fn copy(&self) -> Result<Links, NoMemory>
        ensures { IfOk result (λ l. l ≡ self.now) }
    {
        let links = self.links.clone()?;
        Ok(Links { links })
    }
}

fn matching<'a>(links: &'a BTreeSet<Link>, key: &[u8], prefix: &[u8], n: usize) -> Option<&'a Link>
    ensures { option_copied result ≡ slice_get (filter (λ link. bytes_eq key.now link.0.items && starts_with nat_eq link.1.items prefix.now) links.now.keys) n }
{
    links
        .iter()
        .filter(|link| is_match(link, key, prefix))
        .nth(n)
}

// Adds the link's URL, where it is one of the key that begins with the prefix.
fn push_match<'a>(
    urls: &mut Vec<&'a [u8]>,
    link: &'a Link,
    key: &[u8],
    prefix: &[u8],
) -> Result<(), NoMemory>
    ensures { OnOk result (map (λ url. url.now) urls.new.items ≡ map (λ url. url.now) urls.old.items ++ urls_at (link_of link.now ∷ []) key.now prefix.now) }
{
    if is_match(link, key, prefix) {
        urls.push(link.1.as_slice())?;
    }
    Ok(())
}

fn is_match(link: &Link, key: &[u8], prefix: &[u8]) -> bool
    ensures { result ≡ (bytes_eq key.now link.now.0.items && starts_with nat_eq link.now.1.items prefix.now) }
{
    key == link.0.as_slice() && link.1.as_slice().starts_with(prefix)
}
