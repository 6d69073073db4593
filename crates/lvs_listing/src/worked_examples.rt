//! Worked examples of what a director shows, which the prover computes.
ghost use Rattle.std.specs.Prelude.{◌≡◌, [], ◌∷◌, ◌++◌, codes};
ghost use Rattle.lvs_types.specs.declared.book.Shown.TheVariants as shown;
ghost use Rattle.lvs_model.specs.Snapshots.{snapshot_of};
ghost use Rattle.lvs_model.specs.Listings.{shown_of};
ghost use Rattle.lvs_listing.specs.Savable.{IsSavable};
ghost use Rattle.lvs_listing.specs.ExampleState.{web_director};

/// The three listings of an ordinary web service; the server in the trash isn't shown.
pub fn a_web_service()
    ensures { shown_of web_director (shown.List ∷ shown.Conns ∷ shown.Save ∷ []) ≡
        record { kind = shown.List; text = codes "TCP 10.0.0.1:80 wlc" ++ 10 ∷ codes "  -> 192.168.0.1:8080 Masq 2 1 0" ++ 10 ∷ codes "  -> 192.168.0.2:8080 Masq 1 0 0" ++ 10 ∷ [] }
        ∷ record { kind = shown.Conns; text = codes "TCP 900 ESTABLISHED 172.16.0.9:40000 10.0.0.1:80 192.168.0.1:8080" ++ 10 ∷ [] }
        ∷ record { kind = shown.Save; text = codes "-A -t 10.0.0.1:80 -s wlc" ++ 10 ∷ codes "-a -t 10.0.0.1:80 -r 192.168.0.1:8080 -m -w 2" ++ 10 ∷ codes "-a -t 10.0.0.1:80 -r 192.168.0.2:8080 -m -w 1" ++ 10 ∷ [] }
        ∷ [] }
{}

/// Its tables are such as commands can leave.
pub fn tables_that_come_back()
    ensures { IsSavable (snapshot_of web_director) }
{}
