// The head of the store: how many links and channels there are, and the clock.
ghost use Rattle.std.specs.Prelude.{◌≡◌};
ghost use Rattle.store.specs.Layout.{Long, links_of, with_links, channels_of, with_channels, clock_of, with_clock};

pub fn put_links(store: &mut [u64], v: usize)
    requires { Long store.old }
    ensures { store.new ≡ with_links store.old v }
{
    store[0] = v as u64;
}

pub fn put_channels(store: &mut [u64], v: usize)
    requires { Long store.old }
    ensures { store.new ≡ with_channels store.old v }
{
    store[1] = v as u64;
}

pub fn put_clock(store: &mut [u64], v: u64)
    requires { Long store.old }
    ensures { store.new ≡ with_clock store.old v }
{
    store[2] = v;
}
