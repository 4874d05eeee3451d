// The structs of the library as the list writes them: field by field.
use crate::words::{Word, Words};
use types::{
    Cell2, Cell3, Extents2, Extents3, MapSample2, MapSample3, Model, Point2, Point3,
    RayTermination, ScanBeam2, ScanBeam3, Vector2, Vector3,
};

impl Word for Point2 {
    fn read(words: &mut Words) -> Point2 {
        Point2 {
            x: words.read(),
            y: words.read(),
        }
    }

    fn same(self, said: Point2) -> bool {
        self.x.same(said.x) && self.y.same(said.y)
    }
}

impl Word for Point3 {
    fn read(words: &mut Words) -> Point3 {
        Point3 {
            x: words.read(),
            y: words.read(),
            z: words.read(),
        }
    }

    fn same(self, said: Point3) -> bool {
        self.x.same(said.x) && self.y.same(said.y) && self.z.same(said.z)
    }
}

impl Word for Vector2 {
    fn read(words: &mut Words) -> Vector2 {
        Vector2 {
            x: words.read(),
            y: words.read(),
        }
    }

    fn same(self, said: Vector2) -> bool {
        self.x.same(said.x) && self.y.same(said.y)
    }
}

impl Word for Vector3 {
    fn read(words: &mut Words) -> Vector3 {
        Vector3 {
            x: words.read(),
            y: words.read(),
            z: words.read(),
        }
    }

    fn same(self, said: Vector3) -> bool {
        self.x.same(said.x) && self.y.same(said.y) && self.z.same(said.z)
    }
}

impl Word for Cell2 {
    fn read(words: &mut Words) -> Cell2 {
        Cell2 {
            x: words.read(),
            y: words.read(),
        }
    }

    fn same(self, said: Cell2) -> bool {
        self.x.same(said.x) && self.y.same(said.y)
    }
}

impl Word for Cell3 {
    fn read(words: &mut Words) -> Cell3 {
        Cell3 {
            x: words.read(),
            y: words.read(),
            z: words.read(),
        }
    }

    fn same(self, said: Cell3) -> bool {
        self.x.same(said.x) && self.y.same(said.y) && self.z.same(said.z)
    }
}

impl Word for Extents2 {
    fn read(words: &mut Words) -> Extents2 {
        Extents2 {
            x: words.read(),
            y: words.read(),
        }
    }

    fn same(self, said: Extents2) -> bool {
        self.x.same(said.x) && self.y.same(said.y)
    }
}

impl Word for Extents3 {
    fn read(words: &mut Words) -> Extents3 {
        Extents3 {
            x: words.read(),
            y: words.read(),
            z: words.read(),
        }
    }

    fn same(self, said: Extents3) -> bool {
        self.x.same(said.x) && self.y.same(said.y) && self.z.same(said.z)
    }
}

impl Word for Model {
    fn read(words: &mut Words) -> Model {
        Model {
            occupied: words.read(),
            free: words.read(),
            ceiling: words.read(),
        }
    }

    fn same(self, said: Model) -> bool {
        self.occupied.same(said.occupied)
            && self.free.same(said.free)
            && self.ceiling.same(said.ceiling)
    }
}

impl Word for ScanBeam2 {
    fn read(words: &mut Words) -> ScanBeam2 {
        ScanBeam2 {
            origin: words.read(),
            endpoint: words.read(),
            termination: words.read(),
        }
    }

    fn same(self, said: ScanBeam2) -> bool {
        self.origin.same(said.origin)
            && self.endpoint.same(said.endpoint)
            && self.termination.same(said.termination)
    }
}

impl Word for ScanBeam3 {
    fn read(words: &mut Words) -> ScanBeam3 {
        ScanBeam3 {
            origin: words.read(),
            endpoint: words.read(),
            termination: words.read(),
        }
    }

    fn same(self, said: ScanBeam3) -> bool {
        self.origin.same(said.origin)
            && self.endpoint.same(said.endpoint)
            && self.termination.same(said.termination)
    }
}

impl Word for MapSample2 {
    fn read(words: &mut Words) -> MapSample2 {
        MapSample2 {
            value: words.read(),
            gradient: words.read(),
        }
    }

    fn same(self, said: MapSample2) -> bool {
        self.value.same(said.value) && self.gradient.same(said.gradient)
    }
}

impl Word for MapSample3 {
    fn read(words: &mut Words) -> MapSample3 {
        MapSample3 {
            value: words.read(),
            gradient: words.read(),
        }
    }

    fn same(self, said: MapSample3) -> bool {
        self.value.same(said.value) && self.gradient.same(said.gradient)
    }
}

impl Word for RayTermination {
    fn read(words: &mut Words) -> RayTermination {
        RayTermination(words.read())
    }

    fn same(self, said: RayTermination) -> bool {
        self.0 == said.0
    }
}
